//! Tests of the program: how many puts a run makes, and of calls of event text and hints that no program of this repository makes,
//! where memory is ample.
//!
//! A test is proved like code, and a crate that has tests of its own is proved a second time with them. Here they stand over
//! crates that are proved once.
#![tactic(auto)]

#[cfg(test)]
mod hints;
#[cfg(test)]
mod lines;
#[cfg(test)]
mod puts;
