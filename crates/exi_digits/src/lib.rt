//! Decimal digits as text: read as numbers, and written.
//!
//! A number's digits stand with the most significant one first. A fraction's digits are kept as the number
//! that they spell when read backwards, so that zeros behind the point count and zeros at the end do not:
//!
//! ```text
//! 1205       the number 1205
//! .0530      the digits backwards are 0350: the number 350
//! ```
//!
//! A text is read as bytes: each digit is one. What is read is bounded by 128 bits, and is read in one pass, up to 19
//! digits at a time in a word of 64 bits.
#![tactic(auto)]

mod read;
mod split;
#[cfg(test)]
mod tests;
mod write;

pub use read::{back, number, number_behind};
pub use split::{split_at_either, split_at_mark};
pub use write::{push_fraction, push_number, push_padded, push_two};
