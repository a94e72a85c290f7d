//! The case of lists of events: the stream that is written, or the first event that is refused, in the words of
//! `exi write`. It is written whole by two kinds of string tables, and once event by event. Then each fragment of a
//! self-contained element is written by itself too; it has to stand in the stream as it was written there, and a writer that
//! comes to it has to take it.
//!
//! ```text
//! compose FLAGS EVENTS:TEXT:DEPTH HEX [SCHEMA]    HEX; events Syntax LINE; events NotDerived EVENT; or events KIND EVENT
//! ```
//!
//! SCHEMA is the event text of a schema document, by which is written; else it is written without a schema.

ghost use Rattle.std.specs.Prelude.{◌≡◌, ◌<◌, false, length, true, IfOk, IsTrue, OnOk};
ghost use Rattle.exi_bits.specs.Written.{IsWholeBytes};
ghost use Rattle.exi_bits.specs.declared.align.Align.{Align as Alignment};
ghost use Rattle.exi_gram.specs.Switches.{conflicts};
ghost use Rattle.exi_processing.specs.Runs.{has_ended};
ghost use Rattle.exi_writer.specs.Writing.{IsAtFragment, MayGoOn};

use crate::bodies::limits_of;
use crate::books::book_of;
use exi_bits::{Align, BitOut};
use exi_cases::fields::bytes_of;
use exi_cases::options::options_of;
use exi_cases::show;
use exi_codes::book;
use exi_evtext::parse_events;
use exi_gram::{Book, Options};
use exi_meter::{Limits, Tally};
use exi_names::{Event, QName, TextStop};
use exi_schema::no_schema;
use exi_steps::Steps;
use exi_tables::{HashTables, ListTables, Tables};
use exi_writer::{PutStop, WriteFault, WriteStart, Writer, write_body};
use std::alloc::{AllocError, Global};
use std::marker::Brand;
use std::sync::ledger::{Blank, Ledger};

/// `compose FLAGS EVENTS:TEXT:DEPTH HEX [SCHEMA]`
pub fn answer(alloc: Global, fields: &[&str]) -> Result<Option<String>, AllocError> {
    match fields {
        ["compose", flags, limits, hex] => written_by(alloc, flags, limits, hex, None),
        ["compose", flags, limits, hex, schema] => {
            written_by(alloc, flags, limits, hex, Some(schema))
        }
        _ => Ok(None),
    }
}

/// The answer to a case by its parts.
fn written_by(
    alloc: Global,
    flags: &str,
    limits: &str,
    hex: &str,
    schema: Option<&str>,
) -> Result<Option<String>, AllocError> {
    let (Some(limits), Some(options)) = (limits_of(limits), options_of(flags)) else {
        return Ok(None);
    };
    match bytes_of(alloc, hex)? {
        Some(text) => by_schema(alloc, options, schema, limits, text.as_slice()),
        None => Ok(None),
    }
}

/// The answer for a text, by the schema that is told, or without one.
fn by_schema(
    alloc: Global,
    options: Options,
    schema: Option<&str>,
    limits: Limits,
    text: &[u8],
) -> Result<Option<String>, AllocError>
    requires no_conflict { conflicts options ≡ false }
{
    let book = book_by(alloc, options, schema)?;
    match &book {
        Some(book) => some(told(alloc, book, limits, text)),
        None => Ok(None),
    }
}

/// This answer, as one that there is.
fn some(answer: Result<String, AllocError>) -> Result<Option<String>, AllocError> {
    Ok(Some(answer?))
}

/// The book by the schema that is told, or without one.
fn book_by(
    alloc: Global,
    options: Options,
    schema: Option<&str>,
) -> Result<Option<Book>, AllocError>
    requires no_conflict { conflicts options ≡ false }
{
    let Some(schema) = schema else {
        return Ok(Some(book(alloc, no_schema(alloc)?, options)?));
    };
    match bytes_of(alloc, schema)? {
        Some(text) => book_of(alloc, options, text.as_slice()),
        None => Ok(None),
    }
}

/// The answer for a text.
fn told(alloc: Global, book: &Book, limits: Limits, text: &[u8]) -> Result<String, AllocError> {
    match parse_events(alloc, text) {
        Ok(events) => by_each_way(alloc, book, limits, events.as_slice()),
        Err(TextStop::Syntax(line)) => format!(in alloc; "events Syntax {line}"),
        Err(TextStop::Memory) => Err(AllocError),
    }
}

/// The answer of all ways, where they agree; else a text that says so.
fn by_each_way(
    alloc: Global,
    book: &Book,
    limits: Limits,
    events: &[Event],
) -> Result<String, AllocError> {
    let listed = whole::<ListTables>(alloc, book, limits, events)?;
    let hashed = whole::<HashTables>(alloc, book, limits, events)?;
    let stepped = by_events::<Brand>(alloc, book, limits, events, Blank::new(1))?;
    if listed.as_str() == hashed.as_str() && listed.as_str() == stepped.as_str() {
        return Ok(listed);
    }
    format!(in alloc; "differ: ListTables {listed}; HashTables {hashed}; event by event {stepped}")
}

/// The header, which is the one byte `80`.
fn header(alloc: Global) -> Result<BitOut, AllocError>
    ensures { IfOk result (λ out. (a : Alignment) → IsWholeBytes a out) }
{
    let mut out = BitOut::new(alloc);
    out.put(0x80, 8, Align::Bytes)?;
    Ok(out)
}

/// The answer by one kind of string tables, the list written at once.
fn whole<T: Tables + Drop>(
    alloc: Global,
    book: &Book,
    limits: Limits,
    events: &[Event],
) -> Result<String, AllocError> {
    let head = header(alloc)?;
    match write_body::<T>(alloc, book, limits, events, head) {
        Ok(stream) => show::hex(alloc, stream.bytes()),
        Err(fault) => refusal(alloc, fault),
    }
}

/// Which event is refused, and why.
fn refusal(alloc: Global, fault: WriteFault) -> Result<String, AllocError> {
    match fault {
        WriteFault::NotDerived { event } => format!(in alloc; "events NotDerived {event}"),
        WriteFault::Limit { event, kind } => {
            let kind = kind.word();
            format!(in alloc; "events {kind} {event}")
        }
        WriteFault::Memory => Err(AllocError),
    }
}

/// The same of the event of this number.
fn refused(event: u64, stop: PutStop) -> WriteFault {
    match stop {
        PutStop::NotDerived => WriteFault::NotDerived { event },
        PutStop::Limit(kind) => WriteFault::Limit { event, kind },
        PutStop::Memory => WriteFault::Memory,
    }
}

/// The answer event by event, with a counter of steps that is not looked at.
fn by_events<L: Ledger>(
    alloc: Global,
    book: &Book,
    limits: Limits,
    events: &[Event],
    blank: Blank,
) -> Result<String, AllocError>
    requires name { blank.name ≡ L.name }
    requires parts { (blank.parts ≡ L.parts) × (blank.parts ≡ 1) }
{
    let mut steps = Steps::<L>::of(blank);
    let mut parts = Vec::new(alloc);
    match written(alloc, book, limits, events, &mut parts, &mut steps) {
        Ok(stream) => with_parts(alloc, stream.bytes(), parts.as_slice()),
        Err(fault) => refusal(alloc, fault),
    }
}

/// What was written of a fragment by itself, and whether what it charged fits where it stands.
#[derive(Drop)]
struct Part {
    bits: BitOut,
    fits: bool,
}

/// The stream, where each part fits and stands in it.
fn with_parts(alloc: Global, stream: &[u8], parts: &[Option<Part>]) -> Result<String, AllocError> {
    for part in parts {
        match part {
            Some(part) if part.fits && stands_in(stream, part.bits.bytes()) => {}
            _ => return String::from_str(alloc, "a fragment that is written apart is another"),
        }
    }
    show::hex(alloc, stream)
}

/// Whether the bytes of a fragment stand anywhere in a stream.
fn stands_in(stream: &[u8], part: &[u8]) -> bool {
    for begin in 0..stream.len() {
        if stream[begin..].starts_with(part) {
            return true;
        }
    }
    false
}

/// The stream, written event by event, with the fragments that were written apart.
fn written<L: Ledger>(
    alloc: Global,
    book: &Book,
    limits: Limits,
    events: &[Event],
    parts: &mut Vec<Option<Part>>,
    steps: &mut Steps<L>,
) -> Result<BitOut, WriteFault> {
    let Ok(head) = header(alloc) else {
        return Err(WriteFault::Memory);
    };
    let mut writer = match Writer::<ListTables>::new(alloc, book, limits, WriteStart::Body, head) {
        Ok(writer) => writer,
        Err(stop) => return Err(refused(0, stop)),
    };
    for place in 0..events.len() {
        let outcome = put(
            alloc,
            book,
            limits,
            &mut writer,
            events,
            place,
            parts,
            steps,
        );
        if let Err(stop) = outcome {
            return Err(refused(place as u64 + 1, stop));
        }
    }
    if writer.ended() {
        return Ok(writer.finish());
    }
    Err(WriteFault::NotDerived {
        event: events.len() as u64 + 1,
    })
}

/// Writes the event at a place of a list. Where a fragment begins behind it, that is written apart and then entered.
fn put<L: Ledger>(
    alloc: Global,
    book: &Book,
    limits: Limits,
    writer: &mut Writer<'_, ListTables>,
    events: &[Event],
    place: usize,
    parts: &mut Vec<Option<Part>>,
    steps: &mut Steps<L>,
) -> Result<(), PutStop>
    requires place { place < length events.now }
    requires going { writer.old.waits ≡ false }
    requires composed { MayGoOn writer.old }
    ensures going { OnOk result (writer.new.waits ≡ false) }
    ensures composed { OnOk result (MayGoOn writer.new) }
{
    if !writer.put(&events[place], steps)? {
        return Ok(());
    }
    let part = part_of(alloc, book, limits, writer, events, place, steps)?;
    match parts.push(part) {
        Ok(()) => writer.enter(),
        Err(_) => Err(PutStop::Memory),
    }
}

/// The fragment behind the SC at a place of a list, written by itself; none where its element does not end.
fn part_of<L: Ledger>(
    alloc: Global,
    book: &Book,
    limits: Limits,
    writer: &Writer<'_, ListTables>,
    events: &[Event],
    place: usize,
    steps: &mut Steps<L>,
) -> Result<Option<Part>, PutStop>
    requires place { place < length events.now }
{
    let Some(name) = last_name(&events[..place]) else {
        return Ok(None);
    };
    match apart(alloc, book, limits, name, &events[place + 1..], steps)? {
        Some((bits, tally)) => {
            let fits = writer.fits(&tally)
                && takes(
                    alloc,
                    book,
                    limits,
                    &events[..place],
                    &events[place],
                    &bits,
                    &tally,
                    steps,
                )?;
            Ok(Some(Part { bits, fits }))
        }
        None => Ok(None),
    }
}

/// Whether a writer that comes to the SC behind these events takes the fragment as it was written by itself, and has then charged
/// what that charged too.
fn takes<L: Ledger>(
    alloc: Global,
    book: &Book,
    limits: Limits,
    before: &[Event],
    begin: &Event,
    bits: &BitOut,
    tally: &Tally,
    steps: &mut Steps<L>,
) -> Result<bool, PutStop> {
    let Ok(head) = header(alloc) else {
        return Err(PutStop::Memory);
    };
    let mut writer = Writer::<ListTables>::new(alloc, book, limits, WriteStart::Body, head)?;
    if !comes_to(&mut writer, before, begin, steps)? {
        return Ok(false);
    }
    splice_on(&mut writer, bits, tally)
}

/// Writes events, and then SC; true where that was written, and the writer has come to the fragment.
fn comes_to<L: Ledger>(
    writer: &mut Writer<'_, ListTables>,
    before: &[Event],
    begin: &Event,
    steps: &mut Steps<L>,
) -> Result<bool, PutStop>
    requires going { writer.old.waits ≡ false }
    requires composed { MayGoOn writer.old }
    ensures waits { IfOk result (λ came. writer.new.waits ≡ came) }
    ensures fragment { IfOk result (λ came. IsTrue came → IsAtFragment writer.new) }
{
    for event in before {
        put_on(writer, event, steps)?;
    }
    writer.put(begin, steps)
}

/// The same of a writer that has come to it.
fn splice_on(
    writer: &mut Writer<'_, ListTables>,
    bits: &BitOut,
    tally: &Tally,
) -> Result<bool, PutStop>
    requires waits { writer.old.waits ≡ true }
    requires at_fragment { IsAtFragment writer.old }
{
    if bits.bits() % 8 != 0 || !writer.fits(tally) {
        return Ok(false);
    }
    let charged = writer.tally();
    let Ok(()) = writer.splice(bits, tally) else {
        return Err(PutStop::Memory);
    };
    let now = writer.tally();
    Ok(
        charged.events.checked_add(tally.events) == Some(now.events)
            && charged.text.checked_add(tally.text) == Some(now.text),
    )
}

/// The name of the last element that begins.
fn last_name(events: &[Event]) -> Option<&QName> {
    for event in events.iter().rev() {
        if let Event::Se(name) = event {
            return Some(name);
        }
    }
    None
}

/// Writes one event, and goes into the fragment that it begins.
fn put_on<L: Ledger>(
    writer: &mut Writer<'_, ListTables>,
    event: &Event,
    steps: &mut Steps<L>,
) -> Result<(), PutStop>
    requires going { writer.old.waits ≡ false }
    requires composed { MayGoOn writer.old }
    ensures going { OnOk result (writer.new.waits ≡ false) }
    ensures composed { OnOk result (MayGoOn writer.new) }
{
    if writer.put(event, steps)? {
        writer.enter()?;
    }
    Ok(())
}

/// A fragment of an element of this name, whose events come first in a list, with what it charged.
fn apart<L: Ledger>(
    alloc: Global,
    book: &Book,
    limits: Limits,
    name: &QName,
    events: &[Event],
    steps: &mut Steps<L>,
) -> Result<Option<(BitOut, Tally)>, PutStop> {
    let start = WriteStart::Fragment(name);
    let mut writer = Writer::<ListTables>::new(alloc, book, limits, start, BitOut::new(alloc))?;
    if !ends_in(&mut writer, events, steps)? {
        return Ok(None);
    }
    let tally = writer.tally();
    Ok(Some((writer.finish(), tally)))
}

/// Writes events until the fragment has ended; true where it does.
fn ends_in<L: Ledger>(
    writer: &mut Writer<'_, ListTables>,
    events: &[Event],
    steps: &mut Steps<L>,
) -> Result<bool, PutStop>
    requires going { writer.old.waits ≡ false }
    requires composed { MayGoOn writer.old }
    ensures ended { IfOk result (λ ended. IsTrue ended → has_ended writer.new.config ≡ true) }
{
    for event in events {
        put_on(writer, event, steps)?;
        if writer.ended() {
            return Ok(true);
        }
    }
    Ok(false)
}
