//! Cases of string tables, event codes, headers and event text. Reads them from standard input, one a line, calls the library
//! on each, and prints one line for each, so that an independent implementation's answers are compared call by call.
//!
//! ```text
//! tables MOST CAPACITY CALL ..  what each call answers: see the module `tables`
//! codes FLAGS                   the codes of a stream without a schema: see the module `codes`
//! header FLAGS BLOCK MOST CAPACITY ID TOLD COOKIE    what is written of options: see the module `headers`
//! events HEX                    the events of a text: see the module `events`
//! ```
//!
//! `HEX` is pairs of hex digits, `-` where empty; a text is the hex of its UTF-8. `SKIP` is a number of
//! bits before the item, `BIT` the place after it. A line that is no case is answered by `?`.
#![tactic(auto)]

mod calls;
mod codes;
mod events;
mod headers;
mod tables;

use std::alloc::{AllocError, Global};
use std::io;

/// The answer to a case, and nothing where the line is none.
fn answer(alloc: Global, line: &str) -> Result<Option<String>, AllocError> {
    let mut fields = Vec::new(alloc);
    for field in line.split(' ') {
        fields.push(field)?;
    }
    answer_by(alloc, fields.as_slice())
}

/// The answer by a line's fields. Each kind of case is named in one arm, and read in its own file.
fn answer_by(alloc: Global, fields: &[&str]) -> Result<Option<String>, AllocError> {
    match fields {
        ["codes", ..] => codes::answer(alloc, fields),
        ["events", ..] => events::answer(alloc, fields),
        ["header", ..] => headers::answer(alloc, fields),
        ["tables", ..] => tables::answer(alloc, fields),
        _ => Ok(None),
    }
}

fn main(rt: HostRuntime) -> io::Result<()> {
    for line in rt.lines(rt.alloc()) {
        match answer(rt.alloc(), line?.as_str())? {
            Some(text) => println!(rt; "{text}")?,
            None => println!(rt; "?")?,
        }
    }
    Ok(())
}
