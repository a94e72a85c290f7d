//! A room for the event of a line, whose texts' memory is used again.

ghost use Rattle.std.specs.Prelude.{◌≡◌, IfOk, IfSome, IsTrue, Some, true};
ghost use Rattle.exi_names.specs.Characters.{are_plain};
ghost use Rattle.exi_names.specs.Events as happening;
ghost use Rattle.exi_names.specs.Events.{happens};
ghost use Rattle.exi_names.specs.Seen as shape;
ghost use Rattle.exi_evtext.specs.Plain.{plain_name};
ghost use Rattle.exi_evtext.specs.Reading.{opened_value};
ghost use Rattle.exi_evtext.specs.Rooms.{HoldsOpened};

use crate::front::Front;
use crate::refill::refill;
use exi_names::{Event, QName, Txt, Val, Whole};
use std::alloc::{AllocError, Global};
use std::marker::Model;
use std::mem::replace;

/// Which event of a room is held.
#[derive(Clone, Copy, Debug)]
enum Held {
    Start,
    Attribute,
    Characters,
    End,
    Other,
}

/// A room that holds one event after another. A contract sees the one that is held. The most frequent events have a
/// place each, so that a text is laid in the memory of the one before it.
#[derive(Drop)]
pub struct EventRoom {
    held: Held,
    start: Event,
    attribute: Event,
    characters: Event,
    end: Event,
    other: Event,
}

impl Model for EventRoom {
    ghost use Rattle.exi_names.specs.Events.{Happening, happens};
    ghost use Rattle.exi_evtext.specs.Rooms.{chosen};

    ghost Value = { Happening };

    ghost use Rattle.exi_names.proofs.Codes.{happening_code};

    ghost coded = { happening_code };

    ghost view = { λ r. happens (chosen r.held r.start r.attribute r.characters r.end r.other) };
}

/// No characters, for a name or a value.
fn no_name(alloc: Global) -> QName {
    QName {
        uri: Txt::new(alloc),
        local: Txt::new(alloc),
        prefix: None,
    }
}

/// Puts a name without a prefix in the place of one.
#[inline(always)]
fn rename(name: &mut QName, uri: &Front<'_>, local: &Front<'_>) -> Result<bool, AllocError>
    requires uri { are_plain uri.now ≡ true }
    requires local { are_plain local.now ≡ true }
    ensures { IfOk result (λ done. IsTrue done → name.new ≡ plain_name uri.now local.now) }
{
    if name.prefix.is_some() {
        return Ok(false);
    }
    uri.fill(&mut name.uri)?;
    local.fill(&mut name.local)?;
    Ok(true)
}

/// Puts a text in the place of one.
#[inline(always)]
fn revalue(value: &mut Val, text: &Front<'_>) -> Result<bool, AllocError>
    requires { are_plain text.now ≡ true }
    ensures { IfOk result (λ done. IsTrue done → shape.seen value.new ≡ shape.text text.now) }
{
    let Val::Text(held) = value else {
        return Ok(false);
    };
    text.fill(held)?;
    Ok(true)
}

/// Puts the text that bytes begin with, behind the quote that opens it, in the place of one; the answer is what stands
/// behind the quote that closes it.
#[inline(always)]
fn reopen<'a>(value: &mut Val, bytes: &'a [u8]) -> Result<Option<&'a [u8]>, AllocError>
    ensures { IfOk result (λ found. IfSome found (λ behind. opened_value bytes.now ≡ Some (shape.seen value.new, behind.now))) }
{
    let Val::Text(held) = value else {
        return Ok(None);
    };
    refill(held, bytes)
}

/// An integer as a value.
#[inline(always)]
fn integer(whole: Whole) -> Val
    ensures { shape.seen result ≡ shape.integer whole }
{
    Val::Int(whole)
}

impl EventRoom {
    /// A room that holds the end of an element.
    pub fn new(alloc: Global) -> EventRoom {
        EventRoom {
            held: Held::End,
            start: Event::Se(no_name(alloc)),
            attribute: Event::At(no_name(alloc), Val::Text(Txt::new(alloc))),
            characters: Event::Ch(Val::Text(Txt::new(alloc))),
            end: Event::Ee,
            other: Event::Ee,
        }
    }

    /// The event that is held.
    #[inline(always)]
    pub fn event(&self) -> &Event
        ensures { happens result.now ≡ self.now }
    {
        match self.held {
            Held::Start => &self.start,
            Held::Attribute => &self.attribute,
            Held::Characters => &self.characters,
            Held::End => &self.end,
            Held::Other => &self.other,
        }
    }

    /// Holds this event.
    pub fn hold(&mut self, event: Event)
        ensures { self.new ≡ happens event }
    {
        let _before = replace(&mut self.other, event);
        self.held = Held::Other;
    }

    /// Holds characters of this value. In the place of a value as large no more than that is moved.
    #[inline(always)]
    pub fn hold_value(&mut self, value: Val)
        ensures { self.new ≡ happening.ch (shape.seen value) }
    {
        self.held = Held::Other;
        match &mut self.other {
            Event::Ch(held) => *held = value,
            _ => self.other = Event::Ch(value),
        }
    }

    /// Holds characters that are an integer. In the place of another no more than the number is moved.
    #[inline(always)]
    pub fn hold_integer(&mut self, whole: Whole)
        ensures { self.new ≡ happening.ch (shape.integer whole) }
    {
        if let Event::Ch(Val::Int(held)) = &mut self.other {
            *held = whole;
            self.held = Held::Other;
            return;
        }
        self.hold_value(integer(whole));
    }

    /// Holds the end of an element, where it can.
    #[inline(always)]
    pub fn hold_end(&mut self) -> bool
        ensures { IsTrue result → self.new ≡ happening.ee }
    {
        self.held = Held::End;
        matches!(self.end, Event::Ee)
    }

    /// Holds the start of an element, where it can.
    #[inline(always)]
    pub fn hold_start(&mut self, uri: &Front<'_>, local: &Front<'_>) -> Result<bool, AllocError>
        requires uri { are_plain uri.now ≡ true }
        requires local { are_plain local.now ≡ true }
        ensures { IfOk result (λ done. IsTrue done → self.new ≡ happening.se (plain_name uri.now local.now)) }
    {
        self.held = Held::Start;
        let Event::Se(name) = &mut self.start else {
            return Ok(false);
        };
        rename(name, uri, local)
    }

    /// Holds an attribute, where it can.
    #[inline(always)]
    pub fn hold_attribute(
        &mut self,
        uri: &Front<'_>,
        local: &Front<'_>,
        text: &Front<'_>,
    ) -> Result<bool, AllocError>
        requires uri { are_plain uri.now ≡ true }
        requires local { are_plain local.now ≡ true }
        requires text { are_plain text.now ≡ true }
        ensures { IfOk result (λ done. IsTrue done → self.new ≡ happening.at (plain_name uri.now local.now) (shape.text text.now)) }
    {
        self.held = Held::Attribute;
        let Event::At(name, value) = &mut self.attribute else {
            return Ok(false);
        };
        if !rename(name, uri, local)? {
            return Ok(false);
        }
        revalue(value, text)
    }

    /// Holds characters, where it can.
    #[inline(always)]
    pub fn hold_characters(&mut self, text: &Front<'_>) -> Result<bool, AllocError>
        requires { are_plain text.now ≡ true }
        ensures { IfOk result (λ done. IsTrue done → self.new ≡ happening.ch (shape.text text.now)) }
    {
        self.held = Held::Characters;
        let Event::Ch(value) = &mut self.characters else {
            return Ok(false);
        };
        revalue(value, text)
    }

    /// Holds characters of the text that bytes begin with, behind the quote that opens it, where it can; the answer is what
    /// stands behind the quote that closes it.
    #[inline(always)]
    pub fn hold_opened<'a>(&mut self, bytes: &'a [u8]) -> Result<Option<&'a [u8]>, AllocError>
        ensures { IfOk result (λ found. IfSome found (λ behind. HoldsOpened bytes.now self.new behind.now)) }
    {
        self.held = Held::Other;
        let Event::Ch(value) = &mut self.other else {
            return Ok(None);
        };
        reopen(value, bytes)
    }
}
