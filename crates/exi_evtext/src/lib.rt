//! Events as text, one line an event.
//!
//! ```text
//! SD
//! SE "" "order"
//! AT "" "no" int "7"
//! CH text "two\nlines"
//! EE
//! ED
//! ```
//!
//! A line is a word for the event and what it holds, with one space between. A text stands between quotes, in which a
//! quote, a backslash, a line feed, a carriage return and a tab stand behind a backslash, as `\"`, `\\`, `\n`, `\r` and
//! `\t`. A value is a word and its canonical text, so that the line tells its datatype's kind:
//!
//! ```text
//! text "x"                    a string
//! bool "true"   bool "1"      a boolean by its word, or by its digit
//! int "-12"                   an integer
//! dec "-12.05"                a decimal
//! flo "15E2"                  a float
//! mom "2014-02-11T09:30:00Z"  a date or a time
//! hex "00FF"    base64 "AP8=" octets
//! list 2 int "1" int "2"      a list: how many values, and each of them
//! name "u" "local" "p"        a name: URI, local name, and the prefix where there is one
//! ```
//!
//! Runs of characters that stand for themselves are copied at once. The most frequent lines are laid in a room that the
//! caller has, with no test of capacity behind each part; texts of few bytes are tested and copied all at once. A text that
//! is read as characters is looked at once: its escapes, the quote that closes it and its UTF-8 are found in one pass.
#![tactic(auto)]

mod cursor;
mod frequent;
mod front;
pub mod laws;
mod lay;
mod lay_moment;
mod lay_value;
mod lines;
mod parse;
mod print;
mod quote;
mod read_event;
mod read_value;
mod refill;
mod room;
mod run;
mod scalar;
mod stop;
mod value;

pub use lay::{lay_event, lay_short};
pub use lines::EventLines;
pub use parse::parse_events;
pub use print::{print_event, push_event};
pub use room::EventRoom;
