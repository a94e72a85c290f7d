//! The elements of a schema document (XML Schema 1.0 Part 1), from its events.
//!
//! A schema document is an XML document, here as the events of an EXI stream. [`tree`] gives its elements in the order
//! of their starts, each with what XML Schema asks of it: its name, its attributes, the namespaces that it declares,
//! and the element that holds it.
//!
//! ```text
//!   event                            node
//!   1  SD
//!   2  SE xs:schema                  0   schema, event 2, no parent
//!   3  NS xs                             xs is declared here
//!   4  SE xs:element                 1   element, event 4, parent 0
//!   5  AT name "n"                       name is n
//!   6  EE
//!   7  EE
//!   8  ED
//! ```
//!
//! What else a document holds, as text, comments and instructions, has no meaning in a schema.
#![tactic(auto)]

mod elements;
mod node;
mod start_tag;

pub use elements::tree;
pub use node::{Node, Tree};
