//! What a schema document says (XML Schema 1.0 Part 1): the components that it declares, or what is wrong with it, and at
//! which of its events.
//!
//! A schema document is read from the events of an EXI stream, counted from 1. The first fault is told by its kind and by the
//! event at which the element at fault starts:
//!
//! ```text
//! 1 SD   2 SE xs:schema   3 NS xs   4 SE xs:element   5 AT type "xs:nothing"   ..     Unresolved 4
//! ```
//!
//! Where there is none, [`Components`] has what the document declares. Each part names others by their places, so that a
//! schema takes no more room than its document: groups are never put in the place of their names, and what a type has from
//! its base is found there.
//!
//! ```text
//! elements    0 order, of type 46     1 placed, of type 11 (xs:dateTime)     2 line, of type 47
//! types       0 to 45 built-in        46 of `order`: its content is particle 0       47 Line
//! particles   0 a sequence of 1, 2    1 once element 1    2 once or more element 2
//! ```
#![tactic(auto)]

mod components;
mod fault;
mod parts;
#[cfg(test)]
mod tests;

pub use components::Components;
pub use fault::{SchemaFault, SchemaKind, SchemaStop};
pub use parts::{
    AttributeDecl, AttributeGroup, AttributeUse, Complex, Content, Derivation, ElementDecl, Form,
    Group, Particle, Term, TypeBody, TypeDef, Wild,
};
