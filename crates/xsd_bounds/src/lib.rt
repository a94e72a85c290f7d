//! The bounds that facets give integers, and how the values of a simple type are represented where they are not enumerated
//! (EXI 1.0, section 7.1; XML Schema 1.0 Part 2, section 4.3).
//!
//! A bound is exact, also where it is moved by one past the largest integer that a text spells:
//!
//! ```text
//!   minExclusive 340282366920938463463374607431768211455     from 2^128 on
//!   minInclusive 1, maxExclusive 11                          10 integers from 1 on, by their places
//!   minInclusive 0                                           without a sign
//! ```
#![tactic(auto)]

mod bound;
mod plain;

pub use bound::{Bound, greater, smaller};
pub use plain::{family_form, integer_form, least_of, most_of};
