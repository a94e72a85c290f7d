//! What a schema document makes known: its components, and the grammars that they become (EXI 1.0, section 8.5).
//!
//! ```text
//!   events ──▶ components ──▶ grammars
//! ```
#![tactic(auto)]

mod alone;
mod known;
pub mod laws;

pub use alone::types_alone;
pub use known::{KnownSchema, schema_of};
