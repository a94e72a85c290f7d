//! The words of the command line, as a command with its values, or none.
//!
//! ```text
//!   words ──▶ first word ──▶ the command's table ──▶ clap ──▶ values ──▶ Command
//!             read index     its flags, options,     one a    numbers in range,
//!             write schema   and one FILE or N       word     options that exclude nothing
//!             gen
//! ```
//!
//! [`command_of`] does all of it. What words a table takes, and what values they give, is `clap`'s own definition of a simple
//! command; what each value means is this crate's. Words that no command has give `None`, and never a text for the user.
#![tactic(auto)]

mod command;
mod lend;
mod table;
mod terms;
#[cfg(test)]
mod tests;
mod values;
mod verb;

pub use command::{Command, Reading, Writing, command_of};
pub use lend::lent;
pub use terms::Terms;
