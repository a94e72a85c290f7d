//! The bits of an EXI stream: n-bit numbers and Unsigned Integers, read and written, and the faults
//! that a reader answers (EXI 1.0, sections 5.4, 7.1.6 and 7.1.9).
//!
//! Bits are counted from 0 at the head of the stream, the most significant of a byte first. An n-bit
//! number stands in a bit-packed stream ([`Align::Bits`]) as its n bits, the most significant first,
//! and in a byte-aligned one ([`Align::Bytes`]) in as many whole bytes as hold n bits, the least
//! significant byte first:
//!
//! ```text
//! bit       0 1 2 3 4 5 6 7   8 9 ..
//!          +-----+---------------+--
//! Bits     |1 0 1|1 0 0 1 1 0 0 0| ..         5 in 3 bits, then 152 in 8 bits
//!          +-----+---------------+--
//!          +---------------+---------------+
//! Bytes    |0 0 1 0 1 1 0 0|0 0 0 0 0 0 0 1|  300 in 9 bits: 2C 01
//!          +---------------+---------------+
//! ```
//!
//! An Unsigned Integer is made of groups of seven bits, the least significant group first, each in an
//! octet whose top bit says that another follows. In a bit-packed stream it stands at any bit:
//!
//! ```text
//!          +-+-------------+-+-------------+
//! 300      |1|0 1 0 1 1 0 0|0|0 0 0 0 0 1 0|  AC 02: 44 + 128 * 2
//!          +-+-------------+-+-------------+
//! ```
//!
//! At most 19 octets are read, and a value below 2^128. Longer spellings within these bounds are read;
//! the writer writes the shortest.
#![tactic(auto)]

mod align;
mod bit_in;
mod bit_out;
mod fault;
pub mod laws;
mod widths;
mod words;

pub use align::Align;
pub use bit_in::BitIn;
pub use bit_out::BitOut;
pub use fault::{Fault, Kind, Part, Stop};
pub use widths::bits_for;
