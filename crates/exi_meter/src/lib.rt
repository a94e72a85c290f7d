//! Counts what a stream or an event list takes, and stops it at its limits.
//!
//! A [`Meter`] counts three things against [`Limits`]:
//!
//! ```text
//!                 SD  SE a  AT x "12"  SE b  CH "hello"  EE  EE  ED
//! events           1     2          3     4           5   6   7   8     one for each event
//! text             0     1          4     5          10  10  10  10     characters of names and values
//! level            0     1          1     2           2   1   0   0     open elements
//! ```
//!
//! A count that would pass its limit is refused, and then nothing changes. What was counted apart,
//! as for a self-contained element (EXI 1.0, section 5.4), is a [`Tally`], which is added as a whole.
//!
//! The limits are the codec's own: the recommendation has none. No call takes memory.
#![tactic(auto)]

mod limits;
mod meter;
mod tally;

pub use limits::{Limits, MAX_DEPTH, MAX_EVENTS, MAX_TEXT};
pub use meter::Meter;
pub use tally::Tally;
