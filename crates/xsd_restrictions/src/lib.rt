//! Simple types step by step: what a restriction, a list or a union is, given its base or its items, and how its values are
//! represented (EXI 1.0, section 7.1; XML Schema 1.0 Part 2, section 4.1.2).
//!
//! Types of one representation share it, so that a chain of restrictions of an enumerated type copies no value:
//!
//! ```text
//!   simpleType  restriction  base="xs:token"     3 values        form 52, the choice of three
//!   simpleType  restriction  of that             a pattern       form 52
//!   simpleType  list         of that                             form 53, the list of 52
//! ```
#![tactic(auto)]

mod entry;
mod facets;
mod forms;
mod restriction;

pub use entry::{Entry, Kind, built_in, list_of, union, unknown};
pub use forms::Forms;
pub use restriction::restrict;
