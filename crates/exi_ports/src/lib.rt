//! The outside of the codec: where files come from, where bytes go, and what a worker waits for.
//!
//! Whatever reads and writes streams is handed three objects, and calls nothing else of the system. Each is known
//! by a trait alone, so that a program, a test and a contract speak of the same calls:
//!
//! ```text
//!   outside                           here                                      inside
//!
//!   files by their paths ---------->  FileShelf --+
//!                                                 +--  Shelf::fetch  ------->  all bytes under a name, or why not
//!   a list of files in memory ----->  MemShelf ---+
//!
//!   standard output  <--- 64 KiB ---  OutSink ----+
//!                                                 +--  Sink::put  <----------  one piece after another
//!   a list of bytes in memory  <----  MemSink ----+
//!
//!   nothing to wait for               NoGate -----+--  Gate::pass  <-----------  a worker, before it posts
//!   another worker, in tests          HoldGate ---+
//! ```
//!
//! A contract sees of a shelf the files and the names asked so far, and of a sink the bytes taken, each where the
//! object tells them, and of both a count of faults. A fault is an error of the outside: an answer `Failed` comes
//! only where the count rose in that call, so whoever finds the count as it was knows that the outside did what it
//! was asked. A count never falls, and stands still at 2^64 - 1. Of a gate a contract sees nothing.
//!
//! [`MemShelf`] and [`MemSink`] tell all, and fail at the calls that a test names. [`FileShelf`] and [`OutSink`] are
//! the edge to the system. No contract can say what a file holds or what an output shows, so they tell nothing; but
//! how they read a source to its end and gather pieces before a writer is proved for sources and writers whose bytes
//! are known.
#![tactic(auto)]

mod file_shelf;
mod gate;
mod hold_gate;
mod lay;
mod mem_shelf;
mod mem_sink;
mod out_sink;
mod shelf;
mod sink;
mod waiting;

pub use file_shelf::FileShelf;
pub use gate::{Gate, NoGate};
pub use hold_gate::HoldGate;
pub use lay::Lay;
pub use mem_shelf::MemShelf;
pub use mem_sink::MemSink;
pub use out_sink::OutSink;
pub use shelf::{Fetch, Shelf};
pub use sink::{Sink, SinkStop};

#[cfg(test)]
mod tests;
