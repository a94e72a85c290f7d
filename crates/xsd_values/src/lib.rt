//! What the types of a schema document have of their bases: the type of their value, and whether their content is mixed.
//!
//! Each type is looked at once, after its base, so a long chain of types is not walked again from each of them:
//!
//! ```text
//!   1  complexType name="length"       the type of its value is xs:decimal
//!   2    simpleContent
//!   3      extension base="xs:decimal"
//!   4  complexType name="height"       that of 1, which is known when 4 is looked at
//!   5    simpleContent
//!   6      extension base="length"
//! ```
#![tactic(auto)]

mod mixed;
mod value_types;
mod values;

pub use values::Values;
