//! What an element of a schema document is, what it says, and what stands around it (XML Schema 1.0 Part 1).
//!
//! Elements go by their places in the order of their starts, as in a [`xsd_tree::Tree`]:
//!
//! ```text
//!   0  schema        targetNamespace="urn:a"
//!   1  element       name="n"                   held by 0, so it is global
//!   2  complexType                              held by 1
//!   3  annotation                               held by 2; skipped, with all that it holds
//! ```
#![tactic(auto)]

mod around;
mod attribute_name;
mod part;
mod text;

pub use around::{
    holder, is_among_at, is_at, is_global, is_skipped, parent_at, part_at, part_of, root,
    second_holder, target, text_at,
};
pub use attribute_name::AttributeName;
pub use part::{Part, is_among, is_part, part_named};
pub use text::is_text;
