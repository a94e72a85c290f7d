//! Workers: threads that read self-contained fragments ahead of the reader, and post what came of them.
//!
//! A job may come with hints, bytes at which a fragment of a self-contained element may begin (EXI 1.0, section 8.4.3).
//! A worker claims a hint on the board, reads the fragment that begins there onto a tape, and posts the tape with the end
//! of the reading:
//!
//! ```text
//!     board                                  pool
//!   +-------+                              +------+
//!   | hint  | -- claim -->  a worker  <--- | page |
//!   |       |                  |           +------+
//!   |       |                  | reads the fragment at the hint's byte,
//!   |       |                  | each event onto a tape of pages
//!   |       |                  v
//!   |       | <-- post ---  end + tape                 or, where the reader was there first, or no page or no memory
//!   +-------+                                          is left: the pages go back, and the hint is spent
//! ```
//!
//! Whether a fragment begins there is not known: what a worker posts is the outcome of reading one there, and is of use
//! only to a reader that comes to a fragment at this byte. [`work`] does this until no hint is left; [`Hand`] is what a
//! thread does with a seat, and [`Plain`] the hand that does it by [`work`].
//!
//! A reader asks a [`Desk`] for the posting of the fragment to which it has come, and gives each back: [`BoardDesk`]
//! arrives at a board, [`ListDesk`] holds postings in a list, and [`NoDesk`] has none.
#![tactic(auto)]

mod board_desk;
mod decoding;
mod desk;
mod fate;
mod hand;
mod held;
pub mod laws;
mod limits;
mod list_desk;
mod no_desk;
mod note;
mod posting;
mod settling;
mod through;
mod worked;
mod working;

pub use board_desk::BoardDesk;
pub use desk::Desk;
pub use hand::{Hand, Plain};
pub use held::Held;
pub use limits::{WORKER_DEPTH, WORKER_EVENTS, WORKER_TEXT, worker_limits};
pub use list_desk::ListDesk;
pub use no_desk::NoDesk;
pub use note::JobNote;
pub use posting::Posting;
pub use worked::Worked;
pub use working::work;
