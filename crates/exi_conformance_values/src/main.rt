//! Cases of single items: bits, numbers, values and texts. Reads them from standard input, one a line, calls the library on
//! each, and prints one line for each, so that an independent implementation's answers are compared call by call.
//!
//! ```text
//! uint SKIP HEX                 VALUE BIT, or fault KIND BIT
//! nbit ALIGN WIDTH SKIP HEX     NUMBER BIT, or none BIT
//! wbit ALIGN WIDTH SKIP NUMBER  HEX BITS
//! wuint SKIP NUMBER             HEX BITS
//! read DATATYPE ALIGN SKIP HEX  VALUE BIT, or fault KIND BIT
//! chars SET ALIGN COUNT SKIP HEX    text HEX BIT, or fault KIND BIT
//! wchars SET ALIGN SKIP TEXT    HEX BITS
//! value DATATYPE TEXT           VALUE, or none
//! place DATATYPE TEXT           the place of the value in an enumeration, or none
//! write DATATYPE ALIGN SKIP TEXT    HEX BITS, or none
//! ```
//!
//! `HEX` is pairs of hex digits, `-` where empty; a text is the hex of its UTF-8. `SKIP` is a number of
//! bits before the item, `BIT` the place after it. A line that is no case is answered by `?`.
#![tactic(auto)]

mod reads;
mod texts;
mod writes;

use std::alloc::{AllocError, Global};
use std::io;

/// The answer to a case, and nothing where the line is none.
fn answer(alloc: Global, line: &str) -> Result<Option<String>, AllocError> {
    let mut fields = Vec::new(alloc);
    for field in line.split(' ') {
        fields.push(field)?;
    }
    answer_by(alloc, fields.as_slice())
}

/// The answer by a line's fields. Each kind of case is named in one arm, and read in its own file.
fn answer_by(alloc: Global, fields: &[&str]) -> Result<Option<String>, AllocError> {
    match fields {
        ["uint" | "nbit" | "read" | "chars", ..] => reads::answer(alloc, fields),
        ["wuint" | "wbit" | "wchars", ..] => writes::answer(alloc, fields),
        ["value" | "place" | "write", ..] => texts::answer(alloc, fields),
        _ => Ok(None),
    }
}

fn main(rt: HostRuntime) -> io::Result<()> {
    for line in rt.lines(rt.alloc()) {
        match answer(rt.alloc(), line?.as_str())? {
            Some(text) => println!(rt; "{text}")?,
            None => println!(rt; "?")?,
        }
    }
    Ok(())
}
