//! The case of event texts: how many events a text has, and whether they are printed as it.
//!
//! ```text
//! events HEX     N events, printed the same; N events; or Syntax LINE
//! ```

use exi_cases::fields::bytes_of;
use exi_evtext::{parse_events, push_event};
use exi_names::{Event, TextStop};
use std::alloc::{AllocError, Global};

/// `events HEX`
pub fn answer(alloc: Global, fields: &[&str]) -> Result<Option<String>, AllocError> {
    let ["events", hex] = fields else {
        return Ok(None);
    };
    match bytes_of(alloc, hex)? {
        Some(bytes) => Ok(Some(parsed(alloc, bytes.as_slice())?)),
        None => Ok(None),
    }
}

/// The answer for a text.
fn parsed(alloc: Global, bytes: &[u8]) -> Result<String, AllocError> {
    match parse_events(alloc, bytes) {
        Ok(events) => told(alloc, events.as_slice(), bytes),
        Err(TextStop::Syntax(line)) => format!(in alloc; "Syntax {line}"),
        Err(TextStop::Memory) => Err(AllocError),
    }
}

/// How many they are, and whether they are printed as the text.
fn told(alloc: Global, events: &[Event], bytes: &[u8]) -> Result<String, AllocError> {
    let count = events.len();
    let printed = print(alloc, events)?;
    if printed.as_bytes() == bytes {
        return format!(in alloc; "{count} events, printed the same");
    }
    format!(in alloc; "{count} events")
}

/// The lines of events.
fn print(alloc: Global, events: &[Event]) -> Result<String, AllocError> {
    let mut all = String::new(alloc);
    for event in events {
        push_event(&mut all, &event.as_ref())?;
    }
    Ok(all)
}
