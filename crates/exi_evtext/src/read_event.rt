//! The event that a line says.

ghost use Rattle.std.specs.Prelude.{◌≡◌, ◌∷◌, [], take, drop, length, bytes_eq, option_map, ◌^◌};
ghost use Rattle.exi_names.specs.Events.{happens};
ghost use Rattle.exi_evtext.specs.Parsing.{Tells};
ghost use Rattle.exi_evtext.specs.Reading.{attribute_in, bare, characters_in, doctype_in, event_in, event_of, fragment_in, instruction_in, integer_characters, namespace_in, only_text, start_in, truth_of};

use crate::cursor::Cursor;
use crate::read_value::inside_integer;
use crate::room::EventRoom;
use crate::scalar::number_of;
use crate::stop::LineStop;
use exi_names::{Event, Txt};

/// Whether a word has these two bytes, and no more.
#[inline(always)]
fn is_pair(word: &[u8], first: u8, second: u8) -> bool
    ensures { result ≡ bytes_eq word.now (first ∷ second ∷ []) }
{
    word.len() == 2 && word[0] == first && word[1] == second
}

impl<'a> Cursor<'a> {
    /// An event that holds nothing.
    #[inline(always)]
    fn bare(&self, event: Event) -> Result<Event, LineStop>
        ensures { Tells happens result (bare (happens event) self.now) }
    {
        self.end()?;
        Ok(event)
    }

    /// The start of an element.
    #[inline(never)]
    fn start(&mut self) -> Result<Event, LineStop>
        ensures { Tells happens result (start_in self.old) }
    {
        self.past(b' ')?;
        let name = self.name()?;
        self.end()?;
        Ok(Event::Se(name))
    }

    /// An attribute.
    #[tactic(auto, unfolding(crate::specs::Reading::attribute_in))]
    #[inline(never)]
    fn attribute(&mut self) -> Result<Event, LineStop>
        ensures { Tells happens result (attribute_in self.old) }
    {
        self.past(b' ')?;
        let name = self.name()?;
        self.past(b' ')?;
        let value = self.value()?;
        self.end()?;
        Ok(Event::At(name, value))
    }

    /// Characters.
    #[inline(never)]
    fn characters(&mut self) -> Result<Event, LineStop>
        ensures { Tells happens result (characters_in self.old) }
    {
        self.past(b' ')?;
        let value = self.value()?;
        self.end()?;
        Ok(Event::Ch(value))
    }

    /// Characters that are an integer, behind the quote that opens its text, into a room.
    #[inline(always)]
    fn integer_into(&mut self, room: &mut EventRoom) -> Result<(), LineStop>
        ensures { Tells (λ _. room.new) result (integer_characters self.old) }
    {
        let whole = self.opened_integer()?;
        self.end()?;
        room.hold_integer(whole);
        Ok(())
    }

    /// Characters, into a room: only their value is moved. By a schema most are integers.
    #[inline(always)]
    fn characters_into(&mut self, room: &mut EventRoom) -> Result<(), LineStop>
        ensures { Tells (λ _. room.new) result (characters_in self.old) }
    {
        let Some(inside) = inside_integer(self.left) else {
            return self.any_characters_into(room);
        };
        self.left = inside;
        self.integer_into(room)
    }

    /// The same, of any value.
    #[inline(never)]
    fn any_characters_into(&mut self, room: &mut EventRoom) -> Result<(), LineStop>
        ensures { Tells (λ _. room.new) result (characters_in self.old) }
    {
        self.past(b' ')?;
        let value = self.value()?;
        self.end()?;
        room.hold_value(value);
        Ok(())
    }

    /// Whether a prefix is that of the element itself.
    fn truth(&self) -> Result<bool, LineStop>
        ensures { Tells (λ b. b) result (truth_of self.now) }
    {
        if self.left == b" true".as_slice() {
            Ok(true)
        } else if self.left == b" false".as_slice() {
            Ok(false)
        } else {
            Err(LineStop::Form)
        }
    }

    /// A namespace declaration.
    #[tactic(auto, unfolding(crate::specs::Reading::namespace_in))]
    fn namespace(&mut self) -> Result<Event, LineStop>
        ensures { Tells happens result (namespace_in self.old) }
    {
        let uri = self.also()?;
        let prefix = self.also()?;
        let element = self.truth()?;
        Ok(Event::Ns {
            uri,
            prefix,
            element,
        })
    }

    /// The start of a self-contained fragment, at byte 0 where none is told.
    fn fragment(&mut self) -> Result<Event, LineStop>
        ensures { Tells happens result (fragment_in self.old) }
    {
        if self.left.is_empty() {
            return Ok(Event::Sc { at: 0 });
        }
        self.past(b' ')?;
        let Some(place) = number_of(self.left) else {
            return Err(LineStop::Form);
        };
        match u64::try_from(place) {
            Ok(at) => Ok(Event::Sc { at }),
            Err(_) => Err(LineStop::Form),
        }
    }

    /// One text, and nothing else.
    fn only_text(&mut self) -> Result<Txt, LineStop>
        ensures { Tells (λ t. t) result (only_text self.old) }
    {
        let text = self.also()?;
        self.end()?;
        Ok(text)
    }

    /// A processing instruction.
    #[tactic(auto, unfolding(crate::specs::Reading::instruction_in))]
    fn instruction(&mut self) -> Result<Event, LineStop>
        ensures { Tells happens result (instruction_in self.old) }
    {
        let target = self.also()?;
        let text = self.only_text()?;
        Ok(Event::Pi { target, text })
    }

    /// A document type declaration.
    #[tactic(auto, unfolding(crate::specs::Reading::doctype_in))]
    fn doctype(&mut self) -> Result<Event, LineStop>
        ensures { Tells happens result (doctype_in self.old) }
    {
        let name = self.also()?;
        let public = self.also()?;
        let system = self.also()?;
        let text = self.only_text()?;
        Ok(Event::Dt {
            name,
            public,
            system,
            text,
        })
    }

    /// The event of a word of two letters, the most frequent first.
    #[inline(always)]
    #[tactic(auto, unfolding(crate::specs::Reading::event_of))]
    fn event_of(&mut self, word: &[u8]) -> Result<Event, LineStop>
        ensures { Tells happens result (event_of word.now self.old) }
    {
        if is_pair(word, b'S', b'E') {
            self.start()
        } else if is_pair(word, b'E', b'E') {
            self.bare(Event::Ee)
        } else if is_pair(word, b'C', b'H') {
            self.characters()
        } else if is_pair(word, b'A', b'T') {
            self.attribute()
        } else {
            self.any_event_of(word)
        }
    }

    /// The event of any word of two letters.
    #[cold]
    #[inline(never)]
    #[tactic(auto, unfolding(crate::specs::Reading::event_of))]
    fn any_event_of(&mut self, word: &[u8]) -> Result<Event, LineStop>
        ensures { Tells happens result (event_of word.now self.old) }
    {
        if word == b"SE".as_slice() {
            self.start()
        } else if word == b"EE".as_slice() {
            self.bare(Event::Ee)
        } else if word == b"CH".as_slice() {
            self.characters()
        } else if word == b"AT".as_slice() {
            self.attribute()
        } else if word == b"NS".as_slice() {
            self.namespace()
        } else if word == b"SC".as_slice() {
            self.fragment()
        } else if word == b"CM".as_slice() {
            Ok(Event::Cm(self.only_text()?))
        } else if word == b"PI".as_slice() {
            self.instruction()
        } else if word == b"DT".as_slice() {
            self.doctype()
        } else if word == b"ER".as_slice() {
            Ok(Event::Er(self.only_text()?))
        } else if word == b"SD".as_slice() {
            self.bare(Event::Sd)
        } else if word == b"ED".as_slice() {
            self.bare(Event::Ed)
        } else {
            Err(LineStop::Form)
        }
    }

    /// The event that a line says.
    #[inline(always)]
    #[tactic(auto, unfolding(crate::specs::Reading::event_in))]
    pub fn event(&mut self, line: &'a [u8]) -> Result<Event, LineStop>
        ensures { Tells happens result (event_in line.now) }
    {
        let (word, left) = line.split_at(line.len().min(2));
        self.left = left;
        self.event_of(word)
    }

    /// Reads the event of a word of two letters into a room. By a schema most are characters with a datatype.
    #[inline(always)]
    fn event_of_into(&mut self, word: &[u8], room: &mut EventRoom) -> Result<(), LineStop>
        ensures { Tells (λ _. room.new) result (event_of word.now self.old) }
    {
        if is_pair(word, b'C', b'H') {
            return self.characters_into(room);
        }
        self.any_event_into(word, room)
    }

    /// The same, of any event. It stands apart, so that characters need no memory for an event.
    #[inline(never)]
    fn any_event_into(&mut self, word: &[u8], room: &mut EventRoom) -> Result<(), LineStop>
        ensures { Tells (λ _. room.new) result (event_of word.now self.old) }
    {
        let event = self.event_of(word)?;
        room.hold(event);
        Ok(())
    }

    /// Reads the event that a line says into a room.
    #[inline(always)]
    #[tactic(auto, unfolding(crate::specs::Reading::event_in))]
    pub fn event_into(&mut self, line: &'a [u8], room: &mut EventRoom) -> Result<(), LineStop>
        ensures { Tells (λ _. room.new) result (event_in line.now) }
    {
        let (word, left) = line.split_at(line.len().min(2));
        self.left = left;
        self.event_of_into(word, room)
    }
}
