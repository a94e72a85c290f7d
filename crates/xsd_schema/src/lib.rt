//! What a schema document declares, as components that fit together (XML Schema 1.0 Part 1, section 2.2), or its first fault.
//!
//! ```text
//!   events ──▶ tree ──▶ faults, element by element      the first is answered
//!                  └──▶ declarations ──▶ components     where there is none
//! ```
//!
//! `facets`, `simple_shown`, `fitting`, `conditions` and `faults` ask what is wrong with an element; `built_in`, `simple`, `read`,
//! `types` and `declarations` make what the document declares; and by `laws` that fits together.
#![tactic(auto)]

mod built_in;
mod conditions;
mod declarations;
mod facets;
mod faults;
mod fitted;
mod fitting;
pub mod laws;
mod read;
mod shown;
mod simple;
mod simple_shown;
mod types;

pub use fitted::{components, parts_of};
pub use shown::shows;
