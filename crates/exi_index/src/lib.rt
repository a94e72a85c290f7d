//! Hints: at which bytes self-contained elements begin, as text, a number on each line.
//!
//! ```text
//! 7
//! 13
//! ```
//!
//! A line has 1 to 20 decimal digits, zeros in front allowed, of a number below 2^64, and a line feed ends it; there are
//! at most 65,536 lines. A text without bytes has no lines. A hint promises nothing: what it says may be false.
#![tactic(auto)]

pub mod laws;
mod parse;
mod print;

pub use parse::parse_hints;
pub use print::{print_hints, push_hint};
