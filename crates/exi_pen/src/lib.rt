//! One event written (EXI 1.0, sections 6, 7.1 and 8.4).
//!
//! A [`Pen`] stands where a writer stands: it finds the production that stands for an event, writes its code and its items,
//! and goes to the next configuration, which is the reader's.
#![tactic(auto)]

mod ends;
mod kinds;
mod moves;
mod pen;
mod puts;
mod quick;
mod step;

pub use pen::Pen;
