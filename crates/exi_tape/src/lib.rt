//! Lists of events on pages of a pool.
//!
//! A thread that reads ahead keeps the events that it reads for another thread. It spells them on pages
//! ([`exi_pool`]) one after another, so that a push costs little more than a copy of the texts' bytes, and takes no
//! memory. Whoever gets the tape plays it: each event is made anew in one room, and shown to an `EventOut`.
//!
//! An event is a byte for its kind, and then its parts in order. A number is one byte where it is below 255, and else
//! `FF` and eight bytes, the lowest first. A text is the number of its UTF-8 bytes and these bytes, as they lie in
//! memory. An event may lie on two pages or more:
//!
//! ```text
//!   Se "" "item"               Ch "x"                    Ee
//!   +----+----+----+-------------+----+  +----+----+----+----+  +----+
//!   | 02 | 00 | 04 | i  t  e  m  | 00 |  | 05 | 00 | 01 | 78 |  | 03 |
//!   +----+----+----+-------------+----+  +----+----+----+----+  +----+
//!     |    |    |                  |       |    |    |    |       |
//!     |    |    local name's       no      |    |    |    'x'     kind
//!     |    URI's length            prefix  |    |    length
//!     kind                                 |    a text
//!                                          kind
//!
//!   the pages, the newest first
//!
//!   +-----------------------+      +------------------------+
//!   | .. m 00 05 00 01 78 03|  --> | 00 02 00 04 i t e      |  --> nothing
//!   +-----------------------+      +------------------------+
//!     the first bytes of it          all 4,096 bytes of it
//! ```
//!
//! A value that is no text is the byte 1, its own length, the byte of its kind and its parts; a list has the number of
//! its items and each of them in turn, and no list in a value is nested deeper than the value is long. So what bytes
//! spell is found by a reading from the front, and [`laws`] says that what was spelled is read, whatever comes after.
//!
//! A [`Tape`] is seen as the list of events that were pushed and the numbers of its pages. A push that finds no page
//! leaves the list as it was; pages that it took by then stay with the tape until [`Tape::give_back`]. [`TapeOut`] puts
//! on a tape whatever a reader shows it.
#![tactic(auto)]

pub mod laws;
mod play;
mod push;
mod read;
mod roll;
mod room;
mod sizes;
mod tape;
mod tape_out;
mod walk;
mod write;

pub use roll::Full;
pub use tape::Tape;
pub use tape_out::TapeOut;
