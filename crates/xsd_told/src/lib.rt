//! What is wrong with an element of a schema document, as far as it can be told from its own attributes and from what they name
//! (XML Schema 1.0 Part 1, sections 3.2 to 3.9).
//!
//! Each condition is asked of one element:
//!
//! ```text
//!   3  sequence
//!   4    element  name="a"  minOccurs="2"      its bounds are 2 and 1
//!   5    element                               has no name and refers to no element
//!   6    element  ref="none"                   no element has that name
//!   7    group                                 refers to no group
//! ```
#![tactic(auto)]

mod bounds;
mod missing;
mod references;

pub use bounds::{has_bad_bounds, most_at};
pub use missing::{is_named_and_refers, is_nameless, is_unread, lacks_base, refers_to_none};
pub use references::{lacks_head, names_no_type, refers_to_missing};
