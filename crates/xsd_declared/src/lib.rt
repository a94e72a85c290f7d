//! The elements and attributes that a schema document declares (XML Schema 1.0 Part 1, sections 3.2, 3.3 and 3.6), each with the
//! places of what it names.
//!
//! ```text
//!   0  schema        targetNamespace="urn:a"
//!   1    element     name="a"  type="xs:int"           {urn:a}a, of the type at 26
//!   2    element     name="b"  substitutionGroup="a"   {urn:a}b, of the type of its head, element 0
//!   3    attributeGroup  name="g"
//!   4      attribute  name="c"  use="required"         a use of attribute 0, which has to stand
//!   5      attribute  name="d"  use="prohibited"       d may not stand
//! ```
#![tactic(auto)]

mod attributes;
mod elements;
mod lists;
mod names;
mod type_step;
mod walks;

pub use attributes::{attribute_decl, attribute_group, use_at, uses_at};
pub use elements::{element_decl, element_meant, event_at, head_at, told_type};
pub use lists::{attribute_groups_of, attributes_of, elements_of};
pub use names::declared_name;
pub use type_step::TypeStep;
