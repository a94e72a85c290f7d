//! Where an element of a schema document may stand (XML Schema 1.0 Part 1, appendix A).
//!
//! What an element may hold stands in slots, which follow each other. An element brings what holds it to a slot of its own,
//! and may stand where what stands before it has come to no later one than it allows:
//!
//! ```text
//!   complexType      allows   comes to
//!     sequence          0        2      nothing before it
//!     attribute         3        3      behind the group of elements
//!     anyAttribute      3        4      last
//!     attribute         3        -      4 is later than 3: it may not stand here
//! ```
#![tactic(auto)]

mod order;
mod slot;

pub use order::Order;
