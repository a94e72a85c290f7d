//! A schema document: its header, its events, and what they make known.

ghost use Rattle.std.specs.Prelude.{◌≡◌, ◌≤◌, ◌*◌, ◌^◌, IfOk, false, length};
ghost use Rattle.exi_bits.specs.Bits.{IsAligned};
ghost use Rattle.exi_gram.specs.Switches.{align_of, conflicts};
ghost use Rattle.exi_header.specs.Headers.{Tells};
ghost use Rattle.exi_names.specs.Lists.{events_of};
ghost use Rattle.exi_processing.specs.Reading.{IsJob, job_of};
ghost use Rattle.xsd_file.specs.Documents.{Comes, IsProcessed, MakesKnown, Reads, ReadsFrom, document_bounds, document_header, document_options};

use crate::refusal::{SchemaHalt, SchemaRefusal};
use exi_bits::{Fault, Kind, Stop};
use exi_gram::{OptionFlags, Options, SchemaWord};
use exi_header::Header;
use exi_meter::{Limits, MAX_DEPTH};
use exi_names::EventList;
use exi_opening::{accepted_header, book_of};
use exi_processing::{End, Job, ReadStop, Start, keeps_prefixes};
use exi_reader::read_from;
use exi_steps::Steps;
use exi_tables::PlaceTables;
use std::alloc::Global;
use std::marker::Brand;
use std::sync::ledger::{Blank, Ledger};
use xsd_known::{KnownSchema, schema_of};
use xsd_model::SchemaStop;

/// The most events of a schema document.
pub const MOST_EVENTS: u64 = 1 << 20;

/// The most text of a schema document, in units.
pub const MOST_TEXT: u64 = 1 << 24;

/// The options of a document whose header tells none: prefixes are preserved.
fn document_options() -> Options
    ensures options { result ≡ document_options }
    ensures free { conflicts result ≡ false }
{
    Options {
        flags: OptionFlags::PREFIXES,
        schema: SchemaWord::Absent,
        block: 1_000_000,
        most: None,
        capacity: None,
    }
}

/// The limits of a document.
fn document_limits() -> Limits
    ensures { result ≡ document_bounds }
{
    match Limits::new(MOST_EVENTS, MOST_TEXT, MAX_DEPTH) {
        Some(limits) => limits,
        None => Limits::of_stream(),
    }
}

/// The header of a document, which preserves prefixes and names no schema.
fn document_header(alloc: Global, bytes: &[u8]) -> Result<Header, Stop>
    requires few { length bytes.now ≤ 2 ^ 26 }
    ensures read { Tells result (document_header bytes.now) }
    ensures free { IfOk result (λ h. conflicts h.options ≡ false) }
    ensures within { IfOk result (λ h. h.body ≤ 8 * length bytes.now) }
    ensures aligned { IfOk result (λ h. IsAligned (align_of h.options) (record { bytes = bytes.now; place = h.body })) }
{
    let header = accepted_header(alloc, bytes, &document_options())?;
    if keeps_prefixes(&header.options) {
        Ok(header)
    } else {
        Err(Stop::Fault(Fault {
            kind: Kind::Conflict,
            bit: header.body,
        }))
    }
}

/// The events of a body, and its end. The steps that it counts are not looked at.
#[tactic(auto, unfolding(crate::specs::Documents::IsProcessed))]
fn read_events<L: Ledger>(
    alloc: Global,
    job: &Job<'_>,
    blank: Blank,
) -> Result<(EventList, End), ReadStop>
    requires name { blank.name ≡ L.name }
    requires parts { (blank.parts ≡ L.parts) × (blank.parts ≡ 1) }
    requires job { IsJob (job_of job.now) }
    ensures { IfOk result (λ r. IsProcessed (job_of job.now) (events_of r.0) r.1) }
{
    let mut events = EventList::new(alloc);
    let mut steps = Steps::<L>::of(blank);
    let limits = document_limits();
    let start = Start::Body;
    let end = read_from::<PlaceTables, EventList, L>(
        alloc,
        job,
        start,
        limits,
        &mut events,
        &mut steps,
    )?;
    Ok((events, end))
}

/// What the events of a document make known.
fn known(alloc: Global, events: &EventList) -> Result<KnownSchema, SchemaHalt>
    requires few { length (events_of events.now) ≤ 2 ^ 28 }
    ensures { MakesKnown (events_of events.now) result }
{
    match schema_of(alloc, events.as_slice()) {
        Ok(schema) => Ok(schema),
        Err(SchemaStop::Fault(fault)) => Err(SchemaHalt::Refused(SchemaRefusal::Document(fault))),
        Err(SchemaStop::Memory) => Err(SchemaHalt::Memory),
    }
}

/// What the events of a document make known, by the end of their stream.
fn by_end(alloc: Global, events: &EventList, end: End) -> Result<KnownSchema, SchemaHalt>
    requires few { length (events_of events.now) ≤ 2 ^ 28 }
    ensures { Comes (events_of events.now) end result }
{
    match end {
        End::Done { .. } => known(alloc, events),
        End::Fault { fault, .. } => Err(SchemaHalt::Refused(SchemaRefusal::Stream(fault))),
    }
}

/// What the events of a body make known.
fn read_body(alloc: Global, job: &Job<'_>) -> Result<KnownSchema, SchemaHalt>
    requires job { IsJob (job_of job.now) }
    ensures { ReadsFrom (job_of job.now) result }
{
    let Ok((events, end)) = read_events::<Brand>(alloc, job, Blank::new(1)) else {
        return Err(SchemaHalt::Memory);
    };
    by_end(alloc, &events, end)
}

/// What the bytes of a schema document's stream make known: its components and their grammars. At most 64 MiB of bytes.
///
/// # Errors
///
/// `Refused` where the stream has a fault, or names a schema, or its header tells options that do not preserve prefixes; and
/// else where its events are no schema document, or one with a fault, or one whose components have no grammars: too many states,
/// or elements of one name that open different grammars. `Memory` where memory is refused.
pub fn read_document(alloc: Global, bytes: &[u8]) -> Result<KnownSchema, SchemaHalt>
    requires few { length bytes.now ≤ 2 ^ 26 }
    ensures { Reads bytes.now result }
{
    let header = match document_header(alloc, bytes) {
        Ok(header) => header,
        Err(Stop::Fault(fault)) => return Err(SchemaHalt::Refused(SchemaRefusal::Stream(fault))),
        Err(Stop::Memory) => return Err(SchemaHalt::Memory),
    };
    let body = header.body;
    let book = book_of(alloc, header.options)?;
    let job = Job {
        book: &book,
        bytes,
        body,
        limits: document_limits(),
    };
    read_body(alloc, &job)
}
