//! Whether a text has a value as a simple type has its values represented (EXI 1.0, section 7.1; XML Schema 1.0 Part 2,
//! sections 2.5.1.2 and 3).
//!
//! ```text
//!   form 3   an integer        `12` has a value, `12 13` has none
//!   form 4   a list of form 3  `12 13` has one
//!   form 5   a list of form 4  `12 13` has one: the list of 12 and the list of 13
//! ```
//!
//! What stands between white space is a list of one word, itself. So a list of lists takes what a list of the innermost items
//! takes, and its words are asked for a value of those alone, however deep the lists lie in one another.
#![tactic(auto)]

mod items;
mod values;

pub use values::has_value;
