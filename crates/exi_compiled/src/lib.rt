//! What the components of a schema become (EXI 1.0, section 8.5), and that it fits together.
#![tactic(auto)]

pub mod laws;
