//! Tests of calls of the crate of plain data that no program of this repository makes, where memory is ample.
//!
//! What the programs call is seen by their cases: `exi_conformance` and its kin answer cases of single calls, and `exi` those of
//! whole streams. A test is proved like code, and a crate that has tests of its own is proved a second time with them. Here they
//! stand over a crate that is proved once.
#![tactic(auto)]

#[cfg(test)]
mod names;
