//! The built-in types of XML Schema (XML Schema 1.0 Part 2, section 3).
//!
//! There are 46 of them. Each goes by its place in the order of their names:
//!
//! ```text
//!   0 ENTITIES   5 NCName   11 anySimpleType   12 anyType   15 boolean   18 dateTime   30 integer   39 string   ..
//! ```
#![tactic(auto)]

mod family;
mod types;

pub use family::Family;
pub use types::{ANY_SIMPLE, ANY_TYPE, base_of, family_of, names, place_of};
