//! Writing of events: the definition, and what holds of it.
#![tactic(auto)]

pub mod laws;
