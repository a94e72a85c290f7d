//! What a schema document names: its types and other components (XML Schema 1.0 Part 1, sections 3.15.3 and 5.3).
//!
//! A component stands directly within the schema and has a name of the schema's target namespace. Elements, attributes, types,
//! groups and groups of attributes have names of their own each; of several of one kind and name the first is meant:
//!
//! ```text
//!   0  schema        targetNamespace="urn:a"  xmlns="urn:a"  xmlns:xs=".."
//!   1    element     name="code"  type="code"       of the type at 2
//!   2    simpleType  name="code"
//!   3      restriction  base="xs:token"             restricts the built-in type 41
//! ```
#![tactic(auto)]

mod globals;
mod schema;
mod type_at;
mod types;

pub use schema::{Global, Schema};
pub use type_at::TypeAt;
