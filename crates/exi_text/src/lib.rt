//! The characters of strings, read and written (EXI 1.0, sections 7.1.10 and 7.1.10.1).
//!
//! A string is a length and its characters. What the length says is the caller's to read; here are the
//! characters. Each is its code point, an Unsigned Integer:
//!
//! ```text
//!      +---------------+---------------+---------------+
//! "Zé" |0 1 0 1 1 0 1 0|1 1 1 0 1 0 0 1|0 0 0 0 0 0 0 1|     5A, E9 01
//!      +---------------+---------------+---------------+
//! ```
//!
//! Where a pattern leaves a set of N characters, each is an n-bit number of as many bits as tell N + 1
//! values apart: below N it is the place of the character in the sorted set, and N says that its code
//! point follows. With the ten digits these are four bits:
//!
//! ```text
//!      +-------+-------+---------------+
//! "4Z" |0 1 0 0|1 0 1 0|0 1 0 1 1 0 1 0|     4, then 10 and 5A
//!      +-------+-------+---------------+
//! ```
//!
//! The characters of a text are decoded in one pass, with room for as many as the bits that are left can
//! hold, and for a few longer ones. Those of ASCII, an octet each, are taken eight at once, as a word, and
//! written by runs. What is read is laid side by side as UTF-8 in a few octets apart, which are added to the
//! text together. A set's characters are decoded at most once a call, and not at all where they are ASCII
//! alone: a place is one step to its character, and a character is found by binary search.
#![tactic(auto)]

pub mod laws;
mod plain;
mod read;
mod room;
mod set;
mod word;
mod write;

pub use read::read_chars;
pub use set::is_writable;
pub use write::write_chars;
