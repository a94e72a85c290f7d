//! What a type has with what its bases give it: its attributes, and its content (XML Schema 1.0 Part 1, section 3.4.2).
//!
//! A type stands in the components as it stands in its document: what its base has is found there, and so are the groups
//! of attributes that it names. Here it is put together, for one type at a time:
//!
//! ```text
//!   type 46            uses a, b             content x
//!   type 47, of 46     uses group 0          extends by y
//!   group 0            uses b, and no a
//!
//!   uses_of 47         b of group 0          of each name what is said last, in the order of the names
//!   content_of 47      x and then y
//! ```
//!
//! No base and no group is looked at twice, however often it is named.
#![tactic(auto)]

mod content;
mod groups;
mod told;
mod uses;

pub use content::{Whole, content_of};
pub use uses::{Use, uses_of};
