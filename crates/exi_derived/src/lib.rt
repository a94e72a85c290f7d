//! That a list of events can be written: a matter of the list, the options and the schema alone, which neither limits nor bits
//! in front change.
#![tactic(auto)]

pub mod laws;
