//! The events that a text says, as a list.

ghost use Rattle.std.specs.Prelude.{◌≡◌};
ghost use Rattle.exi_evtext.specs.Parsing.{Parses, events_in};

use crate::lines::EventLines;
use exi_names::{EventList, TextStop};
use std::alloc::{AllocError, Global};

/// The events of a text: one a line, each line as [`EventLines::next`] reads it.
///
/// # Errors
///
/// `TextStop::Syntax` with the number of the first line, counted from 1, that says no event: one of another form, one
/// that is not UTF-8, one that no line feed ends.
/// `TextStop::Memory` where memory is refused.
pub fn parse_events(alloc: Global, bytes: &[u8]) -> Result<EventList, TextStop>
    ensures { Parses result (events_in bytes.now) }
{
    let mut events = EventList::new(alloc);
    let mut lines = EventLines::new(alloc, bytes);
    while let Some(event) = lines.next()? {
        if let Err(AllocError) = events.add(event) {
            return Err(TextStop::Memory);
        }
    }
    Ok(events)
}
