//! A body, one turn at a time. Each fragment of a self-contained element is read by itself and spliced, where what came of
//! it fits; else it is entered.

ghost use Rattle.std.specs.Prelude.{◌≡◌, ◌≤◌, ◌*◌, false, true, length, IfOk};
ghost use Rattle.exi_conformance.specs.Turns.{GoesOn, IsApart, IsOf};
ghost use Rattle.exi_processing.specs.Reading.{IsJob, IsOutcome, IsReached, IsStartIn, job_of};
ghost use Rattle.exi_processing.specs.Splices.{fits};

use crate::ends::push_end;
use crate::lines::Lines;
use exi_processing::{End, Job, ReadStop, Spliced, Start, Turn};
use exi_reader::{Reader, read_from};
use exi_steps::Steps;
use exi_tables::ListTables;
use std::alloc::{AllocError, Global};
use std::marker::Brand;
use std::sync::ledger::{Blank, Ledger};

/// A body of a case takes fewer turns.
const MOST_TURNS: u32 = 1_000_000;

/// The events and the end.
pub fn read(alloc: Global, job: &Job<'_>, start: Start) -> Result<String, AllocError>
    requires job { IsJob (job_of job.now) }
    requires start { IsStartIn (job_of job.now) start }
{
    let mut lines = Lines {
        text: String::new(alloc),
    };
    read_on::<Brand>(alloc, job, start, &mut lines, Blank::new(1))?;
    Ok(lines.text)
}

/// The same, with a counter of steps that is not looked at.
fn read_on<L: Ledger>(
    alloc: Global,
    job: &Job<'_>,
    start: Start,
    lines: &mut Lines,
    blank: Blank,
) -> Result<(), AllocError>
    requires name { blank.name ≡ L.name }
    requires parts { (blank.parts ≡ L.parts) × (blank.parts ≡ 1) }
    requires job { IsJob (job_of job.now) }
    requires start { IsStartIn (job_of job.now) start }
{
    let mut steps = Steps::<L>::of(blank);
    match by_turns(alloc, job, start, lines, &mut steps) {
        Ok(Some(end)) => push_end(alloc, &mut lines.text, &end),
        Ok(None) => lines.text.push_str("more turns than a case may take"),
        Err(ReadStop::Memory) => Err(AllocError),
        Err(ReadStop::Stopped) => lines.text.push_str("stopped"),
    }
}

/// The end, where it comes within the turns of a case.
fn by_turns<L: Ledger>(
    alloc: Global,
    job: &Job<'_>,
    start: Start,
    lines: &mut Lines,
    steps: &mut Steps<L>,
) -> Result<Option<End>, ReadStop>
    requires job { IsJob (job_of job.now) }
    requires start { IsStartIn (job_of job.now) start }
{
    let mut reader = Reader::<ListTables>::new(alloc, job, start, job.limits)?;
    to_end(alloc, job, &mut reader, lines, steps)
}

/// The same, by this reader.
fn to_end<L: Ledger>(
    alloc: Global,
    job: &Job<'_>,
    reader: &mut Reader<'_, ListTables>,
    lines: &mut Lines,
    steps: &mut Steps<L>,
) -> Result<Option<End>, ReadStop>
    requires job { IsJob (job_of job.now) }
    requires of { IsOf (job_of job.now) reader.old }
    requires reached { IsReached reader.old }
    requires going { reader.old.waits ≡ false }
{
    for _ in 0..MOST_TURNS {
        if let Some(end) = turn(alloc, job, reader, lines, steps)? {
            return Ok(Some(end));
        }
    }
    Ok(None)
}

/// One turn, and past the fragment to which it leads; the end, where it comes there.
#[tactic(auto, using(crate::proofs::Apart::goes_from))]
fn turn<L: Ledger>(
    alloc: Global,
    job: &Job<'_>,
    reader: &mut Reader<'_, ListTables>,
    lines: &mut Lines,
    steps: &mut Steps<L>,
) -> Result<Option<End>, ReadStop>
    requires job { IsJob (job_of job.now) }
    requires of { IsOf (job_of job.now) reader.old }
    requires reached { IsReached reader.old }
    requires going { reader.old.waits ≡ false }
    ensures { IfOk result (λ end. GoesOn reader.old end reader.new) }
{
    match reader.turn(lines, steps)? {
        Turn::Went => Ok(None),
        Turn::AtFragment(byte) => pass(alloc, job, byte, reader, lines, steps),
        Turn::Ended(end) => Ok(Some(end)),
    }
}

/// Passes the fragment at this byte, at which the reader stands; the end, where it comes there.
fn pass<L: Ledger>(
    alloc: Global,
    job: &Job<'_>,
    byte: u64,
    reader: &mut Reader<'_, ListTables>,
    lines: &mut Lines,
    steps: &mut Steps<L>,
) -> Result<Option<End>, ReadStop>
    requires job { IsJob (job_of job.now) }
    requires of { IsOf (job_of job.now) reader.old }
    requires reached { IsReached reader.old }
    requires at_fragment { reader.old.waits ≡ true }
    requires place { reader.old.config.place ≡ 8 * byte }
    ensures { IfOk result (λ end. GoesOn reader.old end reader.new) }
{
    if byte <= job.bytes.len() as u64 {
        let mut inside = Lines {
            text: String::new(alloc),
        };
        let end = apart(alloc, job, byte, &mut inside, steps)?;
        if reader.fits(&end) {
            return Ok(splice(reader, &end, inside.text.as_str(), lines)?);
        }
    }
    reader.enter()?;
    Ok(None)
}

/// The fragment at this byte, read by itself.
fn apart<L: Ledger>(
    alloc: Global,
    job: &Job<'_>,
    byte: u64,
    inside: &mut Lines,
    steps: &mut Steps<L>,
) -> Result<End, ReadStop>
    requires job { IsJob (job_of job.now) }
    requires within { byte ≤ length job.now.bytes.now }
    ensures { IfOk result (λ end. IsApart (job_of job.now) byte end) }
{
    let start = Start::Fragment(byte);
    read_from::<ListTables, Lines, L>(alloc, job, start, job.limits, inside, steps)
}

/// Takes what came of the fragment at which the reader stands, with its events; the end, where it comes there.
fn splice(
    reader: &mut Reader<'_, ListTables>,
    end: &End,
    events: &str,
    lines: &mut Lines,
) -> Result<Option<End>, AllocError>
    requires reached { IsReached reader.old }
    requires at_fragment { reader.old.waits ≡ true }
    requires outcome { IsOutcome reader.old end.now }
    requires fitting { fits reader.old.config end.now ≡ true }
    ensures { IfOk result (λ end. GoesOn reader.old end reader.new) }
{
    match reader.splice(end) {
        Spliced::On => {
            lines.text.push_str(events)?;
            Ok(None)
        }
        Spliced::Ended(end) => {
            lines.text.push_str(events)?;
            Ok(Some(end))
        }
        Spliced::WrongRoot(end) => Ok(Some(end)),
    }
}
