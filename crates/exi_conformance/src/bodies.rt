//! The case of bodies: what reading one gives, event by event, its end and what was charged. It is read once by
//! each kind of string tables, and once turn by turn.

ghost use Rattle.std.specs.Prelude.{◌≡◌, false, IfSome};
ghost use Rattle.exi_gram.specs.Switches.{conflicts};
ghost use Rattle.exi_processing.specs.Reading.{IsJob, IsStartIn, job_of};

use crate::books::book_of;
use crate::ends::push_end;
use crate::lines::Lines;
use crate::turns;
use exi_cases::agree::agreed;
use exi_cases::fields::bytes_of;
use exi_cases::options::options_of;
use exi_codes::book;
use exi_gram::{Book, Options};
use exi_meter::Limits;
use exi_processing::{Job, ReadStop, Start};
use exi_reader::read_from;
use exi_schema::no_schema;
use exi_steps::Steps;
use exi_tables::{HashTables, ListTables, PlaceTables, Tables};
use std::alloc::{AllocError, Global};
use std::marker::Brand;
use std::sync::ledger::{Blank, Ledger};

/// The length of the header, which is the one byte `80`, in bits.
const HEADER: u64 = 8;

/// The longest input, in bytes.
const MOST_BYTES: usize = 67_108_864;

/// `body FLAGS EVENTS:TEXT:DEPTH START HEX`
pub fn answer(alloc: Global, fields: &[&str]) -> Result<Option<String>, AllocError> {
    let ["body", flags, limits, start, hex] = fields else {
        return Ok(None);
    };
    match bytes_of(alloc, hex)? {
        Some(bytes) => told(alloc, flags, limits, start, bytes.as_slice()),
        None => Ok(None),
    }
}

/// `informed FLAGS EVENTS:TEXT:DEPTH START HEX SCHEMA`: a body by the schema that an event text says. What was charged is left
/// out of the answer.
pub fn answer_informed(alloc: Global, fields: &[&str]) -> Result<Option<String>, AllocError> {
    let ["informed", flags, limits, start, hex, schema] = fields else {
        return Ok(None);
    };
    let (Some(limits), Some(options)) = (limits_of(limits), options_of(flags)) else {
        return Ok(None);
    };
    let (Some(bytes), Some(schema)) = (bytes_of(alloc, hex)?, bytes_of(alloc, schema)?) else {
        return Ok(None);
    };
    let Some(book) = book_of(alloc, options, schema.as_slice())? else {
        return Ok(None);
    };
    match told_by(alloc, &book, limits, start, bytes.as_slice())? {
        Some(text) => Ok(Some(without_tally(alloc, text.as_str())?)),
        None => Ok(None),
    }
}

/// An answer without what was charged.
fn without_tally(alloc: Global, text: &str) -> Result<String, AllocError> {
    match text.rsplit_once(" tally ") {
        Some((front, _)) => String::from_str(alloc, front),
        None => String::from_str(alloc, text),
    }
}

/// The answer to a case by its parts.
fn told(
    alloc: Global,
    flags: &str,
    limits: &str,
    start: &str,
    bytes: &[u8],
) -> Result<Option<String>, AllocError> {
    let Some(limits) = limits_of(limits) else {
        return Ok(None);
    };
    match options_of(flags) {
        Some(options) => told_under(alloc, options, limits, start, bytes),
        None => Ok(None),
    }
}

/// The same, with the options.
fn told_under(
    alloc: Global,
    options: Options,
    limits: Limits,
    start: &str,
    bytes: &[u8],
) -> Result<Option<String>, AllocError>
    requires no_conflict { conflicts options ≡ false }
{
    let book = book(alloc, no_schema(alloc)?, options)?;
    told_by(alloc, &book, limits, start, bytes)
}

/// The same, with the book.
fn told_by(
    alloc: Global,
    book: &Book,
    limits: Limits,
    start: &str,
    bytes: &[u8],
) -> Result<Option<String>, AllocError> {
    let Some(job) = job_in(book, bytes, limits) else {
        return Ok(None);
    };
    match start_in(&job, start) {
        Some(start) => by_each_kind(alloc, &job, start),
        None => Ok(None),
    }
}

/// The answer by the three kinds of string tables.
fn by_each_kind(alloc: Global, job: &Job<'_>, start: Start) -> Result<Option<String>, AllocError>
    requires job { IsJob (job_of job.now) }
    requires start { IsStartIn (job_of job.now) start }
{
    let mut answers = Vec::new(alloc);
    answers.push(Some(read::<ListTables>(alloc, job, start)?))?;
    answers.push(Some(read::<HashTables>(alloc, job, start)?))?;
    answers.push(Some(read::<PlaceTables>(alloc, job, start)?))?;
    match agreed(alloc, answers.as_slice())? {
        Some(whole) => Ok(Some(also_by_turns(alloc, job, start, whole)?)),
        None => Ok(None),
    }
}

/// This answer, where reading turn by turn gives the same; else a text that says so.
fn also_by_turns(
    alloc: Global,
    job: &Job<'_>,
    start: Start,
    whole: String,
) -> Result<String, AllocError>
    requires job { IsJob (job_of job.now) }
    requires start { IsStartIn (job_of job.now) start }
{
    let turned = turns::read(alloc, job, start)?;
    if turned.as_str() == whole.as_str() {
        return Ok(whole);
    }
    format!(in alloc; "differ: {whole}; by turns {turned}")
}

/// Three numbers, none of them above the limit of a stream.
pub fn limits_of(text: &str) -> Option<Limits> {
    let (events, others) = text.split_once(':')?;
    let (text, depth) = others.split_once(':')?;
    let events = events.parse::<u64>().ok()?;
    let text = text.parse::<u64>().ok()?;
    let depth = depth.parse::<u32>().ok()?;
    Limits::new(events, text, depth)
}

/// What is read: the body behind the header.
fn job_in<'a>(book: &'a Book, bytes: &'a [u8], limits: Limits) -> Option<Job<'a>>
    ensures { IfSome result (λ j. IsJob (job_of j)) }
{
    if bytes.is_empty() || bytes.len() > MOST_BYTES {
        return None;
    }
    Some(Job {
        book,
        bytes,
        body: HEADER,
        limits,
    })
}

/// Where reading begins: at the body, or at the byte that is told.
fn start_in(job: &Job<'_>, start: &str) -> Option<Start>
    ensures { IfSome result (λ s. IsStartIn (job_of job.now) s) }
{
    if start == "-" {
        return Some(Start::Body);
    }
    match start.parse::<u64>() {
        Ok(byte) if byte <= job.bytes.len() as u64 => Some(Start::Fragment(byte)),
        _ => None,
    }
}

/// The events and the end, by one kind of string tables.
fn read<T: Tables + Drop>(alloc: Global, job: &Job<'_>, start: Start) -> Result<String, AllocError>
    requires job { IsJob (job_of job.now) }
    requires start { IsStartIn (job_of job.now) start }
{
    let mut lines = Lines {
        text: String::new(alloc),
    };
    read_on::<T, Brand>(alloc, job, start, &mut lines, Blank::new(1))?;
    Ok(lines.text)
}

/// The same, with a counter of steps that is not looked at.
fn read_on<T: Tables + Drop, L: Ledger>(
    alloc: Global,
    job: &Job<'_>,
    start: Start,
    lines: &mut Lines,
    blank: Blank,
) -> Result<(), AllocError>
    requires name { blank.name ≡ L.name }
    requires parts { (blank.parts ≡ L.parts) × (blank.parts ≡ 1) }
    requires job { IsJob (job_of job.now) }
    requires start { IsStartIn (job_of job.now) start }
{
    let mut steps = Steps::<L>::of(blank);
    match read_from::<T, Lines, L>(alloc, job, start, job.limits, lines, &mut steps) {
        Ok(end) => push_end(alloc, &mut lines.text, &end),
        Err(ReadStop::Memory) => Err(AllocError),
        Err(ReadStop::Stopped) => lines.text.push_str("stopped"),
    }
}
