//! The elements of a schema document that declare something, and their places among those of their kind (XML Schema 1.0 Part 1,
//! section 2.2).
//!
//! A component names another by its place, which is counted in the document's order. Types are counted from 46 on, behind the
//! built-in ones:
//!
//! ```text
//!   0  schema
//!   1    element      name="a"       element 0
//!   2      complexType               type 46
//!   3        sequence                particle 0
//!   4          element  ref="b"      particle 1; it declares no element
//!   5    element      name="b"       element 1
//! ```
#![tactic(auto)]

mod counts;
mod kind;
mod places;

pub use kind::{Kind, is_kind, is_particle, is_prohibited, is_required, is_told, refers};
pub use places::Places;
