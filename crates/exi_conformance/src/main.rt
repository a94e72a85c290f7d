//! Cases of bodies, read and written, and of schemas. Reads them from standard input, one a line, calls the library on each,
//! and prints one line for each, so that an independent implementation's answers are compared call by call.
//!
//! ```text
//! body FLAGS EVENTS:TEXT:DEPTH START HEX    events and end: see the module `bodies`
//! informed FLAGS EVENTS:TEXT:DEPTH START HEX SCHEMA    the same by a schema: see the module `bodies`
//! compose FLAGS EVENTS:TEXT:DEPTH HEX [SCHEMA]    what is written of events: see the module `composes`
//! book FLAGS HEX                every grammar of a schema with its codes: see the module `books`
//! ```
//!
//! `HEX` is pairs of hex digits, `-` where empty; a text is the hex of its UTF-8. `SKIP` is a number of
//! bits before the item, `BIT` the place after it. A line that is no case is answered by `?`.
#![tactic(auto)]

mod bodies;
mod books;
mod composes;
mod ends;
mod lines;
mod terminals;
mod turns;

use std::alloc::{AllocError, Global};
use std::io;

/// The answer to a case, and nothing where the line is none.
fn answer(alloc: Global, line: &str) -> Result<Option<String>, AllocError> {
    let mut fields = Vec::new(alloc);
    for field in line.split(' ') {
        fields.push(field)?;
    }
    answer_by(alloc, fields.as_slice())
}

/// The answer by a line's fields. Each kind of case is named in one arm, and read in its own file.
fn answer_by(alloc: Global, fields: &[&str]) -> Result<Option<String>, AllocError> {
    match fields {
        ["book", ..] => books::answer(alloc, fields),
        ["body", ..] => bodies::answer(alloc, fields),
        ["informed", ..] => bodies::answer_informed(alloc, fields),
        ["compose", ..] => composes::answer(alloc, fields),
        _ => Ok(None),
    }
}

fn main(rt: HostRuntime) -> io::Result<()> {
    for line in rt.lines(rt.alloc()) {
        match answer(rt.alloc(), line?.as_str())? {
            Some(text) => println!(rt; "{text}")?,
            None => println!(rt; "?")?,
        }
    }
    Ok(())
}
