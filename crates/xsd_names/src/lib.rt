//! The names in a schema document, as `xs:int` (Namespaces in XML 1.0).
//!
//! A name is one of the text before its colon and one of the text behind it, each a name without a colon. The text before it
//! is a prefix, which stands for the namespace that the innermost element around declares for it:
//!
//! ```text
//!   0  schema    xmlns:xs="http://www.w3.org/2001/XMLSchema"  xmlns="urn:a"
//!   1  element   type="xs:int"      int of http://www.w3.org/2001/XMLSchema
//!   2  element   type="code"        code of urn:a
//!   3  element   type="y:code"      no name: y is not declared
//! ```
#![tactic(auto)]

mod letters;
mod names;
mod namespaces;

pub use letters::{is_ncname, letters_of, text_of, trim};
pub use names::{named, own_name};
pub use namespaces::uri_of;
