//! The codes of a schema's productions under the options of a stream (EXI 1.0, sections 6.2, 8.3, 8.4 and 8.5).
//!
//! The productions of a state have their codes in this order; what the options switch off is not there, and
//! the codes close up:
//!
//! ```text
//! one part       AT(name) by name, AT(uri:*) by URI, AT(*), SE(name), SE(uri:*), SE(*), EE, CH
//! more parts     strict: xsi:type and xsi:nil where the grammar has them
//!                else: EE where it is missing, xsi:type, xsi:nil, AT(*), untyped AT, NS, SC,
//!                      SE(*), untyped CH, ER, CM and PI
//! ```
//!
//! xsi:type, xsi:nil, NS and SC are added to the start of an element alone, and attributes where they may
//! stand: in the states to which attributes alone lead from the start, and in that of the content. What is
//! added to these and is no attribute leads to a copy of the content's state, which stands last.
#![tactic(auto)]

mod all;
mod class;
mod early;
mod make;
mod maker;
mod order;
mod parts;
mod places;
mod wholes;

pub use make::book;
