//! Wildcards of a schema document (XML Schema 1.0 Part 1, section 3.10): which namespaces they allow.
//!
//! An attribute `namespace` says it, in a schema of the target namespace `urn:a`:
//!
//! ```text
//!   absent, empty, ##any             any
//!   ##other                          any but urn:a, and none at all is not allowed
//!   ##targetNamespace ##local        urn:a, and none at all
//!   urn:a                            urn:a
//!   urn:b                            a namespace other than the target, which is refused
//! ```
#![tactic(auto)]

mod allowed;
mod foreign;
mod together;
mod words;

pub use allowed::{Allowed, allowed_at};
pub use foreign::is_foreign_wild;
pub use together::both;
