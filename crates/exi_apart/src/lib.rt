//! A self-contained fragment that is written by itself, at whatever byte and behind whatever bits, and then taken into a list: laws.
#![tactic(auto)]

pub mod laws;
