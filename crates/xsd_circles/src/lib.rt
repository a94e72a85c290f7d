//! Components that reach themselves (XML Schema 1.0 Part 1, sections 3.3.6, 3.4.6, 3.6.6, 3.8.6 and 3.14.6).
//!
//! Each element has a level, and no step leads higher. Where each step of an element leads lower, no path comes back to it; only
//! where one stays on its level has the element to be searched from:
//!
//! ```text
//!   place   steps to   level
//!     0        1         2       leads into a circle, and is in none
//!     1        2         1       in a circle
//!     2        1         1       in a circle
//! ```
#![tactic(auto)]

mod circles;
pub mod laws;
mod levels;
mod search;
mod walk;

pub use circles::Circles;
