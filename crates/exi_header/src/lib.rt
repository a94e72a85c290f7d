//! The header of a stream (EXI 1.0, section 5).
//!
//! ```text
//!  $EXI      10        1 or 0       0       0000      options document      0..
//!  └ cookie  └ tells   └ whether    └ no    └ the     └ where the bit       └ up to a whole byte, where
//!    maybe     EXI       options      pre-    first     says so               the stream is byte-aligned
//!                        follow       view    version
//! ```
//!
//! [`read_header`] reads it and says where the body begins; [`write_header`] writes it. The options document itself is
//! that of `exi_options`.
#![tactic(auto)]

mod header;
pub mod laws;
mod read;
mod write;

pub use header::Header;
pub use read::read_header;
pub use write::write_header;
