//! Grammars, event codes and options of EXI 1.0.
//!
//! A stream tells each event by the code of a production in the state that the grammar is in. A code has
//! one to three parts (section 6.2). The productions with codes of one part come first; the next number
//! is the first part of all longer codes, whose second parts tell one production or a group:
//!
//! ```text
//! DocContent with all options on         parts      bits
//!
//!   SE(*)                                0          0
//!   DT                                   1 0        1 0
//!   CM  one group, told apart by         1 1 0      1 1 0
//!   PI  a third part                     1 1 1      1 1 1
//! ```
//!
//! Each part is a number in the fewest bits that tell the values apart that it can have behind the parts
//! before it, so a part with one value takes none. What the options switch off is taken away first, and
//! the codes close up (section 8.3).
//!
//! [`CodedState`] holds the productions of one state by their codes, [`Schema`] the grammars, and [`Book`]
//! both, for the options of one stream. [`read_code`] and [`write_code`] go by a book.
#![tactic(auto)]

mod book;
mod cell;
mod class;
mod code;
mod code_table;
mod entry;
mod front;
mod globals;
mod grammar;
mod index;
mod items;
pub mod laws;
mod named;
mod options;
mod part;
mod rows;
mod schema;
mod second;
mod state;
mod terminal;
mod wholes;
mod write;

pub use book::{Book, read_code, write_code};
pub use class::Class;
pub use code::{Code, Coded};
pub use code_table::CodeTable;
pub use entry::{ElementEntry, TypeEntry};
pub use globals::Globals;
pub use grammar::{Grammar, Production, Proto, Step};
pub use index::Index;
pub use items::Items;
pub use named::Named;
pub use options::{OptionFlags, Options, SchemaWord};
pub use part::read_part;
pub use schema::Schema;
pub use state::CodedState;
pub use terminal::Terminal;
pub use wholes::document;
