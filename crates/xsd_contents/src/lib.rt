//! What the content of a type of a schema document is made of (XML Schema 1.0 Part 1, section 3.4.2), as far as simple types ask
//! it.
//!
//! A type whose content is a value has that of its base where it only adds attributes, and so on along its bases:
//!
//! ```text
//!   1  complexType name="length"       its value is an xs:decimal
//!   2    simpleContent
//!   3      extension base="xs:decimal"
//!   4        attribute name="unit"
//!   5  complexType name="height"       its value is that of its base
//!   6    complexContent
//!   7      extension base="length"
//! ```
#![tactic(auto)]

mod content;
mod value_step;
mod values;
mod words;

pub use content::{is_empty, is_mixed, leaves_base};
pub use value_step::ValueStep;
pub use values::{value_here, value_type};
pub use words::{is_yes, number_at};
