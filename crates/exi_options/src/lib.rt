//! The options document: what a stream's header tells of how the stream is to be read (EXI 1.0, section 5.4
//! and appendix C).
//!
//! It is a small EXI body of its own, strict and bit-packed, and is read by the schema of that appendix. Each element has
//! a code where it may stand, and its end another. So a fragment with nothing else to tell has seven bits:
//!
//! ```text
//! 0         01        01          1                1
//! header    common    fragment    end of common    end of header
//!  1 root    00 less   00 compr.   0 schemaId       0 strict        what else may stand there
//!               10, 11    10, 11
//! ```
//!
//! The states and their codes are data: one list of codes for each sequence of elements. The same lists serve to read and
//! to write.
#![tactic(auto)]

pub mod laws;
mod name;
mod read;
mod table;
mod told;
mod write;

pub use name::MOST_CHARACTERS;
pub use read::read_options;
pub use told::Told;
pub use write::write_options;
