//! Counts the elements, attributes and pieces of character data of a stream: how the library is called.
//!
//! ```text
//! bytes ── accepted_header ──> options, and where the body begins
//!          book_of ──────────> the grammars of these options
//!          read_from ────────> one event after another, to what takes them
//! ```
#![tactic(auto)]

mod counts;

ghost use Rattle.std.specs.Prelude.{◌≡◌, ◌≤◌, ◌^◌, ℕ, length};
ghost use Rattle.exi_example.specs.Counting.{IsCount, IsCountIn};
ghost use Rattle.exi_processing.specs.Reading.{IsJob, Sequences, job_of};
ghost use Rattle.exi_processing.specs.declared.start.Start.TheVariants as start;
ghost use Rattle.exi_meter.specs.Metering.{stream_bounds};

use counts::Counts;
use exi_bits::Stop;
use exi_gram::Options;
use exi_meter::Limits;
use exi_names::EventOut;
use exi_opening::{accepted_header, book_of};
use exi_processing::{End, Job, ReadStop, Start};
use exi_reader::read_from;
use exi_steps::Steps;
use exi_tables::PlaceTables;
use std::alloc::Global;
use std::io;
use std::marker::Brand;
use std::sync::ledger::{Blank, Ledger};

/// `<a b="x" c="y"><d/><e>z</e></a>`, bit-packed.
const STREAM: &[u8] =
    b"\x80\x40\x98\x54\x09\x88\x0d\xe2\xa0\x4c\x60\x6f\x34\x81\x32\x12\x04\xcb\x81\xbd\x10";

/// The events of a body, to what takes them. The steps that it counts are not looked at.
fn read_on<L: Ledger, E: EventOut>(
    alloc: Global,
    job: &Job<'_>,
    out: &mut E,
    blank: Blank,
) -> Result<End, ReadStop>
    requires name { blank.name ≡ L.name }
    requires parts { (blank.parts ≡ L.parts) × (blank.parts ≡ 1) }
    requires job { IsJob (job_of job.now) }
    ensures { (before after : ℕ) × Sequences E.took E.broke result (job_of job.now) start.Body stream_bounds out.old out.new before after }
{
    let mut steps = Steps::<L>::of(blank);
    let limits = Limits::of_stream();
    read_from::<PlaceTables, E, L>(alloc, job, Start::Body, limits, out, &mut steps)
}

/// The counts of a body: of all its events, or its fault.
fn count_body(alloc: Global, job: &Job<'_>) -> Result<Counts, Stop>
    requires { IsJob (job_of job.now) }
    ensures { IsCountIn (job_of job.now) result }
{
    let mut counts = Counts {
        elements: 0,
        attributes: 0,
        characters: 0,
    };
    match read_on::<Brand, Counts>(alloc, job, &mut counts, Blank::new(1)) {
        Ok(End::Done { .. }) => Ok(counts),
        Ok(End::Fault { fault, .. }) => Err(Stop::Fault(fault)),
        Err(ReadStop::Memory | ReadStop::Stopped) => Err(Stop::Memory),
    }
}

/// The counts of a stream without a schema: of all its events, or its fault.
///
/// # Errors
///
/// The fault where the stream is wrong, and `Memory` where memory is refused.
pub fn count(alloc: Global, bytes: &[u8]) -> Result<Counts, Stop>
    requires { length bytes.now ≤ 2 ^ 26 }
    ensures { IsCount bytes.now result }
{
    let header = accepted_header(alloc, bytes, &Options::defaults())?;
    let body = header.body;
    let book = book_of(alloc, header.options)?;
    let job = Job {
        book: &book,
        bytes,
        body,
        limits: Limits::of_stream(),
    };
    count_body(alloc, &job)
}

fn main(rt: HostRuntime) -> io::Result<()> {
    match count(rt.alloc(), STREAM) {
        Ok(counts) => {
            println!(rt; "elements {}", counts.elements)?;
            println!(rt; "attributes {}", counts.attributes)?;
            println!(rt; "characters {}", counts.characters)?;
        }
        Err(Stop::Fault(fault)) => println!(rt; "fault {} {}", fault.kind.word(), fault.bit)?,
        Err(Stop::Memory) => println!(rt; "out of memory")?,
    }
    Ok(())
}
