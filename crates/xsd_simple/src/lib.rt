//! The simple types of a schema document, and how their values are represented (EXI 1.0, section 7.1 and appendix D).
//!
//! Each type is made once, behind those that it is derived from, and found by the element that says how it is derived:
//!
//! ```text
//!   46 built-in types, then one of which nothing is known
//!   2  simpleType name="length"
//!   3    restriction base="xs:decimal"        type 47, kept for element 3
//!   4  complexType name="height"
//!   5    simpleContent
//!   6      restriction base="width"           type 48, kept for element 6: the values of 4, and those of a type of its own
//! ```
#![tactic(auto)]

mod known;
mod simples;

pub use simples::Simples;
