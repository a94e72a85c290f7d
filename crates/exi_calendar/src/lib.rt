//! Dates and times as text (XML Schema 1.0 Part 2, sections 3.2.7 to 3.2.14): from a text to its
//! value, and from a value to its canonical text.
//!
//! The kind of a date or a time says which fields its text has, and which marks stand in front of
//! each:
//!
//! ```text
//! gYear        YYYY
//! gYearMonth   YYYY-MM
//! date         YYYY-MM-DD
//! dateTime     YYYY-MM-DDThh:mm:ss.fraction
//! gMonth       --MM
//! gMonthDay    --MM-DD
//! gDay         ---DD
//! time         hh:mm:ss.fraction
//!
//! year         four digits, or more without a 0 in front; behind a hyphen where it is before the
//!              year 0 (so `-0000` is none); within 64 bits
//! month        01 to 12
//! day          01 to 31, in any month
//! hour         00 to 24
//! minute       00 to 59, in any hour
//! second       00 to 60
//! fraction     a point and one digit at least; may be left out
//! zone         at the end of each: `Z`, `+hh:mm` or `-hh:mm`, at most 14:00 either way; may be left
//!              out
//! ```
//!
//! A fraction is kept as the number that its digits give when read backwards, so `.050` is 50 and
//! `.5` is 5: zeros at its end tell nothing. The canonical text has none of them, and has `Z` for a
//! zone of 0:
//!
//! ```text
//! 2014-02-11T09:30:00.050+00:00     year 2014, month 2, day 11, hour 9, minute 30, second 0,
//!                                   fraction 50, zone 0
//! 2014-02-11T09:30:00.05Z           its canonical text
//! ```
//!
//! The text that [`moment`] takes has no white space around it. [`whole_seconds`] takes only the most frequent of the
//! canonical texts. [`laws`] says how [`moment`] and [`push_moment`] go together.
#![tactic(auto)]

pub mod laws;
mod layout;
mod read;
mod write;

pub use read::{moment, whole_seconds};
pub use write::push_moment;
