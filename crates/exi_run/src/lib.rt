//! The program, as a call: words, files, output and gate are handed in, and a status comes back.
//!
//! ```text
//!   words ──▶ run ◀── shelf: the files that the words name
//!              │
//!              ├─ schema       the grammars of a document, where the words name one
//!              ├─ header       its options, or those of the words; and which schema, if any
//!              ├─ body         read_from ──▶ printer: one event, one line; or one self-contained element, one line
//!              └─ last line    done BIT, or fault KIND BIT
//!                                  ──▶ sink
//! ```
//!
//! [`run`] carries the promise of the whole: what the sink took is the text of the events that EXI's
//! sequential processing gives for the file's bytes, or the part of it that the status tells.
#![tactic(auto)]

mod command;
mod compose;
mod count;
mod ending;
mod files;
mod form;
mod given;
mod halt;
mod laws;
mod names;
mod printer;
mod refuse;
mod starts;
mod status;
mod stream;
mod top;
mod unwritten;
mod words;

pub use ending::Ending;
pub use form::Form;
pub use halt::{Refusal, Role};
pub use laws::{front_of_whole, one_whole, written_is_read};
pub use status::Status;
pub use top::run;
pub use unwritten::Unwritten;
