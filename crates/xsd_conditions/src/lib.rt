//! What is wrong with an element of a schema document, as far as the element and what it names tell (XML Schema 1.0).
//!
//! Each condition is asked of one element:
//!
//! ```text
//!   2  simpleType                    has no name, though it stands directly in the schema
//!   3    restriction  base="code"    no type has that name
//!   4      enumeration               has no value
//! ```
#![tactic(auto)]

mod conditions;

pub use conditions::{
    has_bad_name, is_second, lacks_item, lacks_item_type, lacks_member_types, lacks_name,
    lacks_simple_base, lacks_value, restricts_nothing,
};
