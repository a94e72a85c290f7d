//! The case of books: every grammar of a schema, with the codes of its productions under the option flags.
//!
//! ```text
//! book FLAGS HEX     schema KIND EVENT, or the grammars, joined by ` | `
//! ```
//!
//! HEX is the event text of a schema document. A grammar is `N content C: [..] [..]`, a state each in brackets: its
//! productions in the order of their codes, `CODE TERMINAL>TO`, and `@M` behind where one opens grammar M. Grammars are
//! numbered anew: 0 is Document, 1 is Fragment, then each in the order in which an opened one is first met, its empty form
//! behind it; where none is left, the next type of the document is met.

ghost use Rattle.std.specs.Prelude.{◌≡◌, false};
ghost use Rattle.exi_gram.specs.Switches.{conflicts};

use crate::terminals::terminal;
use exi_cases::fields::bytes_of;
use exi_cases::options::options_of;
use exi_codes::book;
use exi_evtext::parse_events;
use exi_gram::{Book, Code, Coded, CodedState, Grammar, Options, Schema};
use exi_names::{Event, TextStop};
use std::alloc::{AllocError, Global};
use xsd_model::{SchemaFault, SchemaStop};

/// How many types are built in.
const BUILT_IN: usize = 46;
/// The most events of a schema document.
const MOST_EVENTS: usize = 1 << 20;

/// `book FLAGS HEX`
pub fn answer(alloc: Global, fields: &[&str]) -> Result<Option<String>, AllocError> {
    let ["book", flags, hex] = fields else {
        return Ok(None);
    };
    let Some(options) = options_of(flags) else {
        return Ok(None);
    };
    match bytes_of(alloc, hex)? {
        Some(bytes) => of_text(alloc, options, bytes.as_slice()),
        None => Ok(None),
    }
}

/// The answer for an event text.
fn of_text(alloc: Global, options: Options, text: &[u8]) -> Result<Option<String>, AllocError>
    requires no_conflict { conflicts options ≡ false }
{
    match parse_events(alloc, text) {
        Ok(events) => Ok(Some(of_events(alloc, options, events.as_slice())?)),
        Err(TextStop::Syntax(_)) => Ok(None),
        Err(TextStop::Memory) => Err(AllocError),
    }
}

/// The schema of a document's events. More than [`MOST_EVENTS`] find no memory here.
fn schema_of(alloc: Global, events: &[Event]) -> Result<Schema, SchemaStop> {
    if events.len() > MOST_EVENTS {
        return Err(SchemaStop::Memory);
    }
    let known = xsd_known::schema_of(alloc, events)?;
    Ok(known.schema)
}

/// The book by the schema that an event text says, where it says one.
pub fn book_of(alloc: Global, options: Options, text: &[u8]) -> Result<Option<Book>, AllocError>
    requires no_conflict { conflicts options ≡ false }
{
    let events = match parse_events(alloc, text) {
        Ok(events) => events,
        Err(TextStop::Syntax(_)) => return Ok(None),
        Err(TextStop::Memory) => return Err(AllocError),
    };
    match schema_of(alloc, events.as_slice()) {
        Ok(schema) => Ok(Some(book(alloc, schema, options)?)),
        Err(SchemaStop::Fault(_)) => Ok(None),
        Err(SchemaStop::Memory) => Err(AllocError),
    }
}

/// The answer for the events of a document.
fn of_events(alloc: Global, options: Options, events: &[Event]) -> Result<String, AllocError>
    requires no_conflict { conflicts options ≡ false }
{
    match schema_of(alloc, events) {
        Ok(schema) => grammars(alloc, &book(alloc, schema, options)?),
        Err(SchemaStop::Fault(fault)) => refused(alloc, fault),
        Err(SchemaStop::Memory) => Err(AllocError),
    }
}

/// A refused document.
fn refused(alloc: Global, fault: SchemaFault) -> Result<String, AllocError> {
    let kind = fault.kind.word();
    let event = fault.event;
    format!(in alloc; "schema {kind} {event}")
}

/// The grammars that were met, in the order in which they were, each by its place in the schema.
#[derive(Drop)]
struct Met {
    places: Vec<u32>,
    numbers: Vec<Option<u32>>,
}

impl Met {
    /// None but the two of the whole, of so many.
    fn new(alloc: Global, count: usize) -> Result<Met, AllocError> {
        let mut numbers = Vec::new(alloc);
        for _ in 0..count {
            numbers.push(None)?;
        }
        Ok(Met {
            places: Vec::new(alloc),
            numbers,
        })
    }

    /// The number of a grammar, which is met now if it was not before.
    fn number(&mut self, place: u32) -> Result<u32, AllocError> {
        if let Some(Some(number)) = self.numbers.get(place as usize) {
            return Ok(*number);
        }
        let Ok(met) = u32::try_from(self.places.len()) else {
            return Err(AllocError);
        };
        let number = met.saturating_mul(2).saturating_add(2);
        self.places.push(place)?;
        if let Some(known) = self.numbers.get_mut(place as usize) {
            *known = Some(number);
        }
        Ok(number)
    }
}

/// All grammars of a book.
fn grammars(alloc: Global, book: &Book) -> Result<String, AllocError> {
    let schema = book.schema();
    let mut met = Met::new(alloc, schema.grammars().len())?;
    let mut all = String::new(alloc);
    push_grammar(alloc, &mut all, book, 0, 0, &mut met)?;
    all.push_str(" | ")?;
    push_grammar(alloc, &mut all, book, 1, 1, &mut met)?;
    push_met(alloc, &mut all, book, 0, &mut met)?;
    for entry in schema.types().iter().skip(BUILT_IN) {
        let before = met.places.len();
        met.number(entry.full)?;
        push_met(alloc, &mut all, book, before, &mut met)?;
    }
    Ok(all)
}

/// The grammars that were met, from one on, and those that they open.
fn push_met(
    alloc: Global,
    all: &mut String,
    book: &Book,
    from: usize,
    met: &mut Met,
) -> Result<(), AllocError> {
    let mut next = from;
    for _ in 0..book.schema().grammars().len() {
        let Some(place) = met.places.get(next).copied() else {
            break;
        };
        let number = met.number(place)?;
        all.push_str(" | ")?;
        push_grammar(alloc, all, book, place, number, met)?;
        all.push_str(" | ")?;
        push_grammar(
            alloc,
            all,
            book,
            place.saturating_add(1),
            number.saturating_add(1),
            met,
        )?;
        next += 1;
    }
    Ok(())
}

/// A grammar under its number.
fn push_grammar(
    alloc: Global,
    all: &mut String,
    book: &Book,
    place: u32,
    number: u32,
    met: &mut Met,
) -> Result<(), AllocError> {
    if let Some(grammar) = book.schema().grammars().get(place as usize) {
        push_head(alloc, all, grammar, number)?;
    }
    if let Some(states) = book.states().get(place as usize) {
        for state in states.as_slice() {
            push_state(alloc, all, state, met)?;
        }
    }
    Ok(())
}

/// A grammar's number, and where its content begins.
fn push_head(
    alloc: Global,
    all: &mut String,
    grammar: &Grammar,
    number: u32,
) -> Result<(), AllocError> {
    let content = grammar.content;
    let head = format!(in alloc; "{number} content {content}:")?;
    all.push_str(head.as_str())
}

/// A state in brackets.
fn push_state(
    alloc: Global,
    all: &mut String,
    state: &CodedState,
    met: &mut Met,
) -> Result<(), AllocError> {
    all.push_str(" [")?;
    for (place, coded) in state.coded().iter().enumerate() {
        if place > 0 {
            all.push_str(", ")?;
        }
        push_production(alloc, all, coded, met)?;
    }
    all.push(']')
}

/// A production behind its code.
fn push_production(
    alloc: Global,
    all: &mut String,
    coded: &Coded,
    met: &mut Met,
) -> Result<(), AllocError> {
    let terminal = terminal(alloc, &coded.production.on)?;
    let to = coded.production.to;
    let text = match coded.code {
        Code::One(a) => format!(in alloc; "{a} {terminal}>{to}")?,
        Code::Two(a, b) => format!(in alloc; "{a}.{b} {terminal}>{to}")?,
        Code::Three(a, b, c) => format!(in alloc; "{a}.{b}.{c} {terminal}>{to}")?,
    };
    all.push_str(text.as_str())?;
    if let Some(inner) = coded.production.inner {
        let number = met.number(inner)?;
        let opened = format!(in alloc; "@{number}")?;
        all.push_str(opened.as_str())?;
    }
    Ok(())
}
