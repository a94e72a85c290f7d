//! The claim board: workers claim hints, decode what lies there, and post it; a reader arrives and takes what is posted.
//!
//! A hint is an offset at which a piece of work may begin. Each hint has a word, an atomic number, and a slot, which
//! has room for one posting:
//!
//! ```text
//!   hint           0         1         2         3
//!             +---------+---------+---------+---------+
//!   offset    |    7    |   13    |   40    |   95    |   rising; fixed when the board is made
//!             +---------+---------+---------+---------+
//!   word      |    1    |  3 + 2  |    2    |    0    |   changed in one atomic step at a time
//!             +---------+---------+---------+---------+
//!   slot      | posting |         |         |         |   moved by the seat whose turn it is
//!             +---------+---------+---------+---------+
//!                posted   claimed    spent     free
//!                        by seat 2
//! ```
//!
//! Whoever steps on a board does so with a seat. A word never goes back, and 2 is its end:
//!
//! ```text
//!                     claim                     post
//!         0 free ----------------> 3 + s ----------------> 1 posted
//!            |                       |                        |
//!            | arrive                | arrive, give_up        | arrive, which takes the posting
//!            v                       v                        v
//!            +-------------------> 2 spent <------------------+
//! ```
//!
//! So a hint is claimed by one seat at most, a posting is taken by one arrival at most, and no posting is lost: one that
//! comes after an arrival goes back to the seat that made it. [`Board::claim`], [`Board::post`], [`Board::give_up`] and
//! [`Board::arrive`] take no memory and never wait. A claim makes one atomic step for each hint that it tries, and the
//! others make a fixed number of steps, on the word and slot of one hint.
//!
//! For contracts alone, a seat has a view ([`SeatView`]): the hints that it claimed, saw not free, posted, posted late
//! and gave up, and its arrivals with the word found at each. A list of a view only grows. Each call says by how much
//! its seat's view grows, and the rule of a board relates the words to the views of all seats, whatever the threads do;
//! what follows from it is in [`laws`].
#![tactic(auto)]

mod arrival;
mod arriving;
mod board;
mod claiming;
pub mod laws;
mod making;
mod note;
mod numbers;
mod posting;
mod rule;
mod seat;
mod view;

pub use arrival::Arrival;
pub use board::Board;
pub use note::Note;
pub use seat::BoardSeat;
pub use view::{ArrivalRecord, Hints, PostRecord, SeatView};
