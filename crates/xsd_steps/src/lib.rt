//! Where a component's paths lead in one step (XML Schema 1.0 Part 1, sections 3.3.6, 3.4.6, 3.6.6, 3.8.6 and 3.14.6).
#![tactic(auto)]

mod own_steps;
mod owners;
mod steps;

pub use steps::Steps;
