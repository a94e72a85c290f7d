//! Where the productions of a book lead: to states, grammars and names that are there (EXI 1.0, sections 8.4.1 and 8.5).
#![tactic(auto)]

pub mod laws;
