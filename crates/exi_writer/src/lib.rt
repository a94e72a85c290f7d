//! A writer of EXI 1.0 (sections 6, 7.1, 8.4 and 8.5), by a schema or without one, and what holds of what it writes.
//!
//! [`write_body`] writes a list of events behind a header's bits, and a [`ListWriter`] a list whose events come one after
//! another. A [`Writer`] takes one event at a time: [`Writer::put`] writes it, and where it was SC, [`Writer::enter`] goes into
//! the fragment, or [`Writer::splice`] takes what was written of it apart. Without a schema, behind the header `80`, the events
//! SD, SE "a", CH "x", EE, ED are `40 98 70 37 80`, bit by bit:
//!
//! ```text
//!        SE(*)                             CH                        EE  ED
//!   SD   URI   length  "a"                 code  length  "x"         code
//! +----+----+--------+--------+----------+----+--------+--------+----+----+
//! |    | 01 |00000010|01100001|          | 11 |00000011|01111000|  0 |    |
//! +----+----+--------+--------+----------+----+--------+--------+----+----+
//! 8    8    10       18       26         26   28       36       44   45
//! ```
//!
//! What is written is defined in exi_writing: of the productions of a state that may stand for an event, the one with the
//! fewest parts in its code, and among these the one with the least code; its items by the one spelling that is written; what
//! it charges; and the next configuration, which is the reader's. The definitions here say what the calls promise, in its
//! words. [`laws`] says that what is read of a list that was written is that list, each value as its datatype has it.
#![tactic(auto)]

mod body;
mod fault;
mod fragments;
pub mod laws;
mod list;
mod start;
mod writer;

pub use body::write_body;
pub use exi_toll::PutStop;
pub use fault::WriteFault;
pub use list::ListWriter;
pub use start::WriteStart;
pub use writer::Writer;
