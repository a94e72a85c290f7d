//! The built-in grammars of EXI 1.0 and what they learn (sections 8.4.2 and 8.4.3).
//!
//! An element of a name that no schema describes is read by the built-in grammar of that name, which has
//! two states, its start tag's content and its content; a fragment has one state of its own. Each state
//! has the productions that the standard writes, of which the options leave some (section 8.3), and in
//! front of them those that it learned. An event code has one to three parts, each in the fewest bits that
//! tell its values apart (section 6.2). Where nothing is switched on:
//!
//! ```text
//!           content as written     after SE(b), then CH
//!           code    bits           code    bits
//! CH                               0       00
//! SE(b)                            1       01
//! EE        0       0              2       10
//! SE(*)     1.0     1 0            3.0     11 0
//! CH        1.1     1 1            3.1     11 1
//! ```
//!
//! [`Overlay`] keeps what one body learned: for each name its grammar, and for each state its learned
//! productions, which are found by their codes without a walk. [`Overlay::read_code`] takes no memory, and what
//! [`Overlay::clear`] forgets leaves its memory to what is learned next.
#![tactic(auto)]

mod code_list;
mod element_grammar;
mod event_kind;
mod grammar_list;
pub mod laws;
mod learnable;
mod learned_list;
mod least_code;
mod name_index;
mod overlay;
mod reading;
mod uses;
mod writing;
mod written;

pub use code_list::CodeList;
pub use event_kind::EventKind;
pub use learnable::{Learnable, Learned, Room};
pub use name_index::LookUp;
pub use overlay::Overlay;
