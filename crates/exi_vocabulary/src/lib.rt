//! The names of a schema: the first string tables (EXI 1.0, section 7.3 and appendix D), and the names of elements and attributes
//! wherever they are declared.
//!
//! ```text
//! declared           element {u}b   attribute {}a   type {u}a   element {u}b
//! URIs               ""  ..xml  ..xsi  ..XMLSchema  u       the four of every schema, and the others sorted
//! locals of u        a  b                                   sorted, each once
//! element_names      0                                      of each name the place of its first declaration
//! ```
#![tactic(auto)]

mod agreement;
mod name;
mod names;
mod places;
mod tables;
mod texts;

pub use agreement::{agreeing_attributes, agreeing_elements};
pub use places::{attribute_names, element_names, global_elements};
pub use tables::first_names;
