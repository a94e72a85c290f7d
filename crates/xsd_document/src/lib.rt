//! A schema document with what each of its elements holds.
//!
//! The elements are those of a [`xsd_tree::Tree`]. What an element holds is found in one pass when the [`Document`] is made, so
//! that it is never searched for again:
//!
//! ```text
//!   0  schema         holds 1 and 4
//!   1    element      holds 2
//!   2      simpleType holds 3
//!   3        list     holds nothing
//!   4    attribute    holds nothing
//! ```
#![tactic(auto)]

mod document;

pub use document::Document;
