//! Integers, decimals and floats as text (XML Schema Part 2, sections 3.3.13, 3.2.3, 3.2.4 and 3.2.5): what
//! value a text has, and the canonical text of a value.
//!
//! ```text
//!           text                     value                           canonical text
//! integer   +007                     7                               7
//!           -0                       0                               0
//! decimal   -12.050                  minus, 12, 50                   -12.05
//! float     1.5E3                    mantissa 15, exponent 2         15E2
//!           -INF                     mantissa -1, exponent -16384    -INF
//! ```
//!
//! A fraction is kept as the number of its digits in reverse, as in an EXI stream (EXI 1.0, section 7.1.3). The
//! texts that are read are bytes without white space around them; a byte that is no ASCII character stands in
//! none that has a value. Each is looked at once for where it is cut, and once for its digits.
#![tactic(auto)]

mod decimal;
mod float;
mod integer;
pub mod laws;

pub use decimal::{Decimal, decimal_of, push_decimal};
pub use float::{Float, float_of, push_float};
pub use integer::{integer_of, push_integer, small_of, unsigned_of};
