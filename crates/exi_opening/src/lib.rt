//! How a stream is opened (EXI 1.0, sections 5 and 5.4): its header, and the grammars that its body goes by without a schema.
//!
//! ```text
//!   +--------+------------------+---------------------
//!   | cookie | options, if told | body: by these options, or by those of the words
//!   +--------+------------------+---------------------
//! ```
//!
//! The schema of the body is told too: by `nil` that there is none, by an empty name that it is the types of XML Schema alone, and
//! by another name which one it is, where one is known by that name.
#![tactic(auto)]

mod grammars;
mod header;

pub use grammars::book_of;
pub use header::{accepted_header, is_empty_name, stream_header};
