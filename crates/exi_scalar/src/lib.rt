//! Values of the datatypes Binary, Boolean, Decimal, Float and Integer, read and written (EXI 1.0,
//! sections 7.1.1 to 7.1.5). An Unsigned Integer is read too, one of at most three octets as one word
//! (section 7.1.6).
//!
//! Each is made of n-bit numbers and Unsigned Integers, one behind the other. `u` is an Unsigned Integer:
//!
//! ```text
//!          +-------+
//! Boolean  | 1 bit |                          or 2 bits, where the datatype has a pattern
//!          +-------+---------------+
//! Integer  | sign  | u: size       |          size is one less where the sign is minus
//!          +-------+---------------+---------------+
//! Decimal  | sign  | u: whole part | u: fraction   |   -12.05: minus, 12, 50; the fraction in reverse
//!          +-------+-------+-------+---------------+
//! Float    | Integer       | Integer       |  1.5E3: 15 and 2; mantissa, exponent of ten
//!          +---------------+---------------+
//! Binary   | u: count      | octets ..
//!          +---------------+---------------
//! ```
//!
//! A fault is told at the first bit of the number in which it shows, and the reader's place is then as
//! before. The readers take no memory, but for the octets of a Binary. The writers write the shortest
//! Unsigned Integers.
#![tactic(auto)]

mod binary;
mod boolean;
mod decimal;
mod float;
mod integer;
pub mod laws;
mod short;
mod signed;

pub use binary::{read_binary, write_binary};
pub use boolean::{read_boolean, write_boolean};
pub use decimal::{read_decimal, write_decimal};
pub use float::{read_float, write_float};
pub use integer::{read_integer, write_integer};
pub use short::read_unsigned;
