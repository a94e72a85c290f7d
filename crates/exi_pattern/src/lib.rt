//! The characters that the pattern of a string type leaves (EXI 1.0, section 7.1.10.1; XML Schema 1.0 Part 2,
//! appendix F).
#![tactic(auto)]

mod charset;
mod escapes;
mod groups;
mod letters;
mod member;
mod pieces;
mod quantities;
mod splits;
mod stop;

pub use charset::CharSet;
pub use letters::Letters;
pub use pieces::chars_of;
