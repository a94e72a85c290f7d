//! Reads a body or a fragment of an EXI stream event by event (EXI 1.0, sections 6, 8.4 and 8.5), with a schema and
//! without.
//!
//! What sequential processing is stands in exi_processing; here is the reader that does it. A turn of it is:
//!
//! ```text
//!   state --> code --> production --> charges --> content --> event --> next state
//!             codes.rt                step.rt     contents.rt, attributes.rt
//! ```
//!
//! [`Reader`] goes on turn by turn: at a self-contained fragment it stops, and the fragment is entered, or what came of
//! reading it elsewhere is taken in its place ([`Reader::splice`]). [`read_from`] reads to the end.
#![tactic(auto)]

mod attributes;
mod codes;
mod contents;
mod ends;
mod names;
mod read;
mod reader;
mod roots;
mod seen;
mod splice;
mod step;
mod stepper;
mod texts;

pub use read::read_from;
pub use reader::Reader;
