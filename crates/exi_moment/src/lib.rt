//! Dates and times of an EXI stream, read and written (EXI 1.0, section 7.1.8).
//!
//! A date or a time is a run of parts. Its kind says which there are; the zone ends each:
//!
//! ```text
//!                year  month, day  time  fraction  zone
//! gYear           x                                 x
//! gYearMonth      x        x                        x
//! date            x        x                        x
//! dateTime        x        x        x       x       x
//! gMonth                   x                        x
//! gMonthDay                x                        x
//! gDay                     x                        x
//! time                              x       x       x
//!
//!             +-+-- .. --+
//! year        |s|  size  |   Integer: year - 2000; a negative one is -(size + 1)
//!             +-+-- .. --+
//!             +-------+---------+
//! month, day  | month |   day   |   9 bits: month * 32 + day
//!             +-------+---------+
//!             +---------+-----------+-----------+
//! time        |  hour   |  minute   |  second   |   17 bits: (hour * 64 + minute) * 64 + second
//!             +---------+-----------+-----------+
//!             +-+         +-+-- .. --+
//! fraction    |0|    or   |1| digits |   Unsigned Integer: the number of the digits in reverse
//!             +-+         +-+-- .. --+
//!             +-+         +-+---------------------+
//! zone        |0|    or   |1|                     |   11 bits: hours * 64 + minutes + 896
//!             +-+         +-+---------------------+
//! ```
//!
//! The hours and minutes of a zone west of UTC are both negative. In a byte-aligned stream each number
//! stands in whole bytes. So `2014-02-11T09:30:00Z` is the 48 bits `0712D2F00B80`:
//!
//! ```text
//! 0 00001110  0010 01011  01001 011110 000000  0  1 01110000000
//! +      14      2    11      9     30      0     +         896
//! ```
#![tactic(auto)]

mod fields;
pub mod laws;
mod numbers;
mod read;
mod short;
mod write;

pub use fields::is_moment;
pub use read::{read_moment, short_moment};
pub use write::write_moment;
