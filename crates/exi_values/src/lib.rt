//! The value of an attribute or of characters under every datatype (EXI 1.0, section 7.1), read and written through the
//! string tables, with a meter.
//!
//! How a value is spelled goes by its datatype's representation:
//!
//! ```text
//! Small             a place from the least value on, in as few bits as tell its values apart
//! Unsigned          an Unsigned Integer
//! Integer           a sign, and an Unsigned Integer
//! Boolean           one bit, or two where a pattern tells `true` from `1`
//! Binary            a number of octets, and they
//! Decimal           a sign, the part before the point, and the digits behind it in reverse
//! Float             a mantissa and an exponent, two Integers
//! Moment            the fields that its kind has
//! List              a number of items, and they, each a value of its own
//! Choice            the place of an enumerated value, in as few bits as tell them apart
//! Text, Chars       a string value: a hit by its place, or a miss with its characters
//! Name              a URI, a local name and, where prefixes are kept, a prefix
//! ```
//!
//! # A list
//!
//! The items stand one behind the other. Each that goes through the string tables is read under the tables that the
//! one before left, so a list of the strings `a a` under a name without values is a miss and a hit:
//!
//! ```text
//! +---------------+---------------+---------------+---------------+
//! |0 0 0 0 0 0 1 0|0 0 0 0 0 0 1 1|0 1 1 0 0 0 0 1|0 0 0 0 0 0 0 0|
//! +---------------+---------------+---------------+---------------+
//!      2 items       length 1 + 2      U+0061       the only value under its name
//! ```
//!
//! # An enumerated value
//!
//! Of three values the second has the two bits `01`, whatever they are. A place that is not below their number is the
//! fault `BadPlace`, in both alignments.
//!
//! # Our own choices
//!
//! What is read is charged to the meter: a list its number of items and then each item as a value of its own, octets
//! their number, a text its characters, and any other value one unit before its first item. An enumerated text or
//! octets are charged so once their place is read. A list of more than [`MOST_ITEMS`](exi_names::MOST_ITEMS) items is
//! the fault `ListTooLong` at its number, before that is charged.
//!
//! A text that stands in its partition is written as a hit at its least place, an enumerated value by its least place,
//! and each Unsigned Integer in the fewest octets.
#![tactic(auto)]

mod charge;
mod choice;
pub mod laws;
mod plain;
mod put;
mod read;
mod short;
mod write;

pub use read::read_value;
pub use short::{short_integer, short_moment, short_octets};
pub use write::write_value;
