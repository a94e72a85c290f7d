//! Which productions of a state of a book can write an event, one after another in the order in which they are tried:
//! those with fewer parts in their codes first, and among these by their codes (EXI 1.0, section 6.2).
//!
//! ```text
//! event            classes that are looked up
//!
//! SE of a name     Se of the name, SeIn of its URI, SeAny
//! AT of a name     At and AtText of the name, AtIn of its URI, AtAny, AtAnyText
//! AT xsi:type      XsiType, and as AT
//! AT xsi:nil       XsiNil, and as AT
//! CH               Ch, ChText
//! others           their own
//! ```
//!
//! A writer asks for one after another until one fits the event's value ([`next_candidate`]). Nothing is walked but the
//! lists of these classes, and no memory is taken.
#![tactic(auto)]

mod key;
mod nearest;
mod next;
mod sought;

pub use key::Key;
pub use next::next_candidate;
pub use sought::Sought;
