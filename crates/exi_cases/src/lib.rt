//! What the conformance programs share: the fields of a case, and how what comes of it is printed.
#![tactic(auto)]

pub mod agree;
pub mod datatypes;
pub mod fields;
pub mod options;
pub mod show;
