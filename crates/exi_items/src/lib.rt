//! What the readers and writers of a stream's items share: text that is charged to a meter, and what is
//! known of the laws between the bits that spell a value and the value that is read from them.
//!
//! A text's length is charged as soon as it is read, before its characters:
//!
//! ```text
//! length      characters
//! +---------+-------------+
//! | 5       | h e l l o   |     5 units, or the fault TextLimit
//! +---------+-------------+
//! ```
#![tactic(auto)]

mod charge;

pub use charge::charge_text;
