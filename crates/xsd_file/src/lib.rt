//! A schema document from the bytes of its stream.
//!
//! A schema document is an EXI stream without a schema (EXI 1.0, sections 5 and 6), whose events say the XML of the document:
//!
//! ```text
//!   bytes ──▶ header      told options preserve prefixes, and name no schema
//!         ──▶ events      at most 2^20 of them, with 2^24 units of text
//!         ──▶ components  or the first fault of the document
//!         ──▶ grammars    or the first type or element that has none
//! ```
//!
//! A stream goes by the schema that is known so, if one is, unless its header says by `nil` that there is none, or by an empty name
//! that it is the types of XML Schema alone.
#![tactic(auto)]

mod basis;
mod counts;
mod document;
pub mod laws;
mod refusal;

pub use basis::book_by;
pub use counts::{attributes_counted, elements_counted, types_counted};
pub use document::{MOST_EVENTS, MOST_TEXT, read_document};
pub use refusal::{SchemaHalt, SchemaRefusal};
