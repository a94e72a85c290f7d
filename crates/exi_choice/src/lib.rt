//! Which production a writer takes for an event (EXI 1.0, sections 6.2 and 8.4).
//!
//! The definition of writing tries each production of a state; [`laws`] says that only those for such an event in which its
//! value has a spelling need to be looked at, and of these the first: in a built-in state that for its name or use, before
//! that for its kind; in a large state of a book of those alone that are looked up for the event. With the production stands
//! what is written of the value there: itself, or the value that its canonical text has under the production's datatype.
#![tactic(auto)]

mod choice;
mod declared;
mod fit;
mod found;
pub mod laws;
mod places;
mod sought;
mod wanted;

pub use choice::{Choice, Way, choose_special};
pub use declared::{Declared, declaration_of};
pub use fit::Fit;
pub use found::{Found, find_built_in, find_in_book, find_start};
pub use places::{place_told, told_of};
pub use wanted::{Valued, Wanted};
