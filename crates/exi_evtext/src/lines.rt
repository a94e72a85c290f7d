//! The events of a text, one after another.

ghost use Rattle.std.specs.Prelude.{◌≡◌, ◌<◌, length, IfOk, IfSome, IsTrue};
ghost use Rattle.exi_evtext.specs.Parsing.{Fills, GivesNext, events_in, events_left};

use crate::cursor::Cursor;
use crate::frequent::read_frequent;
use crate::room::EventRoom;
use crate::run::split_line;
use crate::stop::LineStop;
use exi_names::{Event, TextStop};
use std::alloc::{AllocError, Global};
use std::marker::Model;

/// The events that a text says, one at a time. A contract sees what is left of the text, and which line is next.
#[derive(Drop)]
pub struct EventLines<'a> {
    cursor: Cursor<'a>,
    left: &'a [u8],
    line: u64,
}

impl<'a> Model for EventLines<'a> {
    ghost use Rattle.std.specs.Prelude.{◌+◌, ◌^◌, ◌<◌, length};
    ghost use Rattle.exi_evtext.specs.Left.{LinesLeft};

    ghost Value = { LinesLeft };

    ghost view = { λ l. record { bytes = l.left.now; line = l.line } };

    ghost invariant = { λ l. l.line + length l.left.now < 2 ^ 64 };
}

impl<'a> EventLines<'a> {
    /// At the first line of a text.
    pub fn new(alloc: Global, bytes: &'a [u8]) -> EventLines<'a>
        ensures events { events_left result ≡ events_in bytes.now }
        ensures bytes { result.bytes ≡ bytes.now }
    {
        EventLines {
            cursor: Cursor::new(alloc),
            left: bytes,
            line: 1,
        }
    }

    /// The event of the next line, where one is left. A line is as [`push_event`](crate::push_event) writes it; a fragment at
    /// byte 0 may also be the line `SC`. The values are those that some datatype can spell, in their canonical texts.
    ///
    /// # Errors
    ///
    /// `TextStop::Syntax` with the number of that line, counted from 1, where it says no event: it is of another form, it is
    /// not UTF-8, or no line feed ends it. `TextStop::Memory` where memory is refused. The same is then left.
    pub fn next(&mut self) -> Result<Option<Event>, TextStop>
        ensures next { GivesNext result self.old self.new }
        ensures shorter { IfOk result (λ next. IfSome next (λ event. length self.new.bytes < length self.old.bytes)) }
    {
        if self.left.is_empty() {
            return Ok(None);
        }
        let (text, behind) = split_line(self.left);
        let Some(behind) = behind else {
            return Err(TextStop::Syntax(self.line));
        };
        match self.cursor.event(text) {
            Ok(event) => {
                self.left = behind;
                self.line += 1;
                Ok(Some(event))
            }
            Err(LineStop::Form) => Err(TextStop::Syntax(self.line)),
            Err(LineStop::Memory) => Err(TextStop::Memory),
        }
    }

    /// Reads the event of the next line into a room; the answer is whether a line was left. The texts of the event that the
    /// room held give their memory to those of the next.
    ///
    /// # Errors
    ///
    /// As [`EventLines::next`]. What the room then holds is not told.
    #[inline(always)]
    pub fn next_in(&mut self, room: &mut EventRoom) -> Result<bool, TextStop>
        ensures next { Fills result room.new self.old self.new }
        ensures shorter { IfOk result (λ more. IsTrue more → length self.new.bytes < length self.old.bytes) }
    {
        match read_frequent(self.left, room) {
            Ok(Some(behind)) => {
                self.left = behind;
                self.line += 1;
                Ok(true)
            }
            Ok(None) => self.any_in(room),
            Err(AllocError) => Err(TextStop::Memory),
        }
    }

    /// The same, of any line.
    #[inline(never)]
    fn any_in(&mut self, room: &mut EventRoom) -> Result<bool, TextStop>
        ensures next { Fills result room.new self.old self.new }
        ensures shorter { IfOk result (λ more. IsTrue more → length self.new.bytes < length self.old.bytes) }
    {
        if self.left.is_empty() {
            return Ok(false);
        }
        let formless = TextStop::Syntax(self.line);
        let (text, behind) = split_line(self.left);
        let Some(behind) = behind else {
            return Err(formless);
        };
        match self.cursor.event_into(text, room) {
            Ok(()) => {
                self.left = behind;
                self.line += 1;
                Ok(true)
            }
            Err(LineStop::Form) => Err(formless),
            Err(LineStop::Memory) => Err(TextStop::Memory),
        }
    }
}
