//! Sequential processing of EXI 1.0 (sections 6, 8.4 and 8.5), with a schema and without: what it is, and what
//! holds of it.
//!
//! A body is a row of events. Each has a code that tells a production of the state in which reading is, and
//! what that production reads: a name, a value, texts, or nothing. `80 40 98 70 37 80`, behind the header's
//! byte, bit by bit:
//!
//! ```text
//!        SE(*)                             CH                        EE  ED
//!   SD   URI   length  "a"                 code  length  "x"         code
//! +----+----+--------+--------+----------+----+--------+--------+----+----+
//! |    | 01 |00000010|01100001|          | 11 |00000011|01111000|  0 |    |
//! +----+----+--------+--------+----------+----+--------+--------+----+----+
//! 8    8    10       18       26         26   28       36       44   45
//! ```
//!
//! The definitions are in `specs/`: the configuration (place, meter, string tables, open elements, what was
//! learned), one event as a function from a configuration to an event and the next configuration or to the
//! first fault, and the run. [`laws`] has what is proved of them.
//!
//! In code there is what a reader and a writer both have and both do: the elements that are open, the bodies that
//! were put aside for a fragment, what a production reads, what is charged before an event's content, and how an
//! event changes the state: learning, opening, closing, going on.
#![tactic(auto)]

mod alone;
mod aside;
mod changes;
mod charges;
mod declared;
mod elements;
mod end;
mod first;
mod frames;
mod halt;
mod instance;
mod job;
pub mod laws;
mod rule;
mod spare;
mod spliced;
mod start;
mod turn;

pub use alone::Alone;
pub use aside::{Aside, Asides, has_texts};
pub use changes::{
    alone_in, close, go_to, innermost, is_nil, is_strict, is_type, keeps_prefixes, learn,
    learn_name, open, state_behind,
};
pub use charges::Charges;
pub use declared::{attribute_datatype, opener};
pub use elements::Elements;
pub use end::End;
pub use first::{first_outer, first_tables, tables_at_start};
pub use frames::{Element, Outer, State};
pub use halt::Halt;
pub use instance::{empty_by, retype};
pub use job::Job;
pub use rule::{Content, Rule, Telling, Valuing};
pub use spare::Spare;
pub use spliced::Spliced;
pub use start::Start;
pub use turn::{Came, ReadStop, Turn};
