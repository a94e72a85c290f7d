//! How many states the grammars of types have before they are normal, so that one of too many is refused before it is made.
//!
//! Each particle is counted once, behind those within it, however often it stands or its group is named:
//!
//! ```text
//! particle   what stands               states            particles
//!   0        a sequence of 1 and 2     2 + 6 = 8         2
//!   1        once element 0            2                 1
//!   2        two to three times 3      3 * 2 = 6         1
//!   3        once element 1            2                 1
//! ```
#![tactic(auto)]

mod counts;
mod kinds;
mod order;
mod settling;
mod size;

pub use counts::{Counts, MOST_STATES};
