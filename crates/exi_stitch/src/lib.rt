//! Fragments of self-contained elements that are decoded ahead, and the reader that takes them in: many workers, one
//! meaning (EXI 1.0, section 8.4.3).
//!
//! Workers claim hints, bytes at which a fragment may begin, decode what stands there, and post what came of it. The reader
//! reads from the first event on. Where it comes to a fragment that was posted, and the posting fits, it takes the
//! posting's events and end in place of reading them; else it reads on by itself.
//!
//! ```text
//! word of a hint   0 free -- claim --> 3 + seat -- post --> 1 posted -- arrive --> 2 spent
//!                                          |                                         ^
//!                                          +------- drop, or an arrival -------------+
//! ```
//!
//! [`laws`] has what is proved of this: whatever the moves are and in whatever order they come, what the reader gives is
//! sequential processing.
#![tactic(auto)]

pub mod laws;
mod meeting;
mod report;
mod stitching;

pub use report::Report;
pub use stitching::stitch;
