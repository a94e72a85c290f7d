//! The attribute wildcards of types (XML Schema 1.0 Part 1, section 3.4.2).
//!
//! An element that holds attributes has the wildcard that it holds together with those of the groups of attributes that it
//! names. An extension without one has that of its base:
//!
//! ```text
//!   1  attributeGroup name="any"
//!   2    anyAttribute                       1 has a wildcard
//!   3  complexType name="a"
//!   4    attributeGroup ref="any"           so has 3
//!   5  complexType name="b"
//!   6    complexContent
//!   7      extension base="a"               and so has 5
//! ```
//!
//! What is known of groups and types is found in the order of their paths, so that each is looked at once.
#![tactic(auto)]

mod groups;
mod second;
mod source;
mod type_wildcards;
mod types;
mod wilds;

pub use source::Source;
pub use type_wildcards::TypeWildcards;
pub use wilds::Wilds;
