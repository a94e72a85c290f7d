//! What a derivation, a group of attributes and an element of a schema document name (XML Schema 1.0 Part 1, sections 3.3.2,
//! 3.6.2 and 3.14.2): each in order, with nothing in the place of what is not there.
//!
//! ```text
//!   1  simpleType name="mark"
//!   2    union  memberTypes="xs:int none"       of xs:int, of nothing, and of the type at 3
//!   3      simpleType
//! ```
#![tactic(auto)]

mod derived;
mod named_groups;
mod union_members;

pub use derived::derived_from;
pub use named_groups::{attribute_groups_named, head_named};
pub use union_members::members;
