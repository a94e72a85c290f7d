//! Paths that end: each step of them leads to a component that is there.
//!
//! An element is whole where each of its steps leads to one that is whole. So the elements without steps are whole, and
//! then those whose steps all lead to them, and so on; what is never reached lies on a circle, or leads to one or to what is
//! not there:
//!
//! ```text
//!   a ──▶ b ──▶ c          order: c b a
//!   d ──▶ e ──▶ d          neither d nor e
//!   f ──▶ nothing there    not f
//! ```
#![tactic(auto)]

mod known;
mod paths;
mod visit;

pub use paths::Paths;
