//! From the text of a value to the value, and back (XML Schema 1.0 Part 2, section 3).
//!
//! An attribute or an element's content is text; under a datatype a text stands for a value, which an EXI stream
//! spells in bits. [`value_of`] gives that value, and nothing where the text has none; [`canon`] gives the one text
//! of a value that is written.
//!
//! ```text
//!              text                       value                              canonical text
//! Decimal      -12.050                    minus, 12, 50                      -12.05
//! Float        1.5E3                      mantissa 15, exponent 2            15E2
//! Boolean      1                          true                               true
//! Moment       2014-02-11T09:30:00+00:00  its fields, zone 0                 2014-02-11T09:30:00Z
//! Binary       00ff                       00 FF                              00FF
//! Binary       A A = =                    00                                 AA==
//! List         ` 1  2 3 `                 1, 2, 3                            1 2 3
//! ```
//!
//! Numbers are those of [`exi_numerals`], dates and times those of [`exi_calendar`]; here are booleans and octets,
//! lists and enumerations, and the white space around and between them.
//!
//! The value of a text is defined by the text's form (`specs/Values.antt`), not by how it is scanned. It is one that the
//! datatype has (`laws::read_is_of_the_form`), and each value that a datatype has is the value of its canonical text
//! (`laws::written_is_read`), but for lists, enumerations and names; a value that a text has comes back from its
//! canonical text under every datatype (`laws::value_comes_back`).
//!
//! A list's items are read where they stand, without a copy; octets are decoded into the memory that they are kept
//! in; a list's canonical text is put together in one string.
#![tactic(auto)]

mod binaries;
mod canonical;
pub mod laws;
mod spaces;
mod values;

pub use canonical::canon;
pub use values::{has_value, value_of};
