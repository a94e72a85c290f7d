//! The particles, groups and complex types that a schema document declares (XML Schema 1.0 Part 1, sections 3.4, 3.7, 3.8 and 3.9),
//! each with the places of what it names.
//!
//! ```text
//!   1  group  name="g"                     its particle is particle 0
//!   2    sequence                          particle 0, once, of particles 1 and 2
//!   3      element  name="a"               particle 1, once, of element 0
//!   4      choice  maxOccurs="unbounded"   particle 2, once or more, of particle 3
//!   5        any                           particle 3, once, of any name
//!   6  complexType  mixed="true"           its content is particle 4, among text
//!   7    group  ref="g"                    particle 4, once, of group 0
//! ```
#![tactic(auto)]

mod complex;
mod content;
mod lists;
mod terms;

pub use complex::{attributes_in, complex_base, complex_def};
pub use content::{group_decl, model_at};
pub use lists::{groups_of, particles_of};
pub use terms::{particle, wild_of};
