//! Reads beside a desk.
ghost use Rattle.std.specs.Prelude.{◌≡◌, ◌≤◌, ◌+◌, [], IfOk, IsErrOf};
ghost use Rattle.exi_names.specs.Events.{Rose};
ghost use Rattle.exi_processing.specs.Reading.{IsJob, job_of};
ghost use Rattle.exi_stitch.specs.Promises.{Asks, TakesSequence, reported};

use crate::meeting::meet;
use crate::report::Report;
use exi_names::EventOut;
use exi_processing::{End, Job, ReadStop, Start, Turn};
use exi_reader::Reader;
use exi_steps::Steps;
use exi_tables::Tables;
use exi_worker::Desk;
use std::alloc::Global;
use std::sync::ledger::Ledger;

/// Reads a body to its end beside a desk: what comes out is sequential processing, whatever the desk gives.
///
/// At each fragment to which reading comes, the desk is asked once. A posting that ends by no limit, and whose tally fits, is
/// used: its events are handed on in place of the fragment's, and reading goes on behind the fragment, or ends as the
/// posting did, or by `ScRoot` where it is that of another element. Any other goes back at once, and the fragment is read
/// here. Each posting goes back once, also where reading stops.
///
/// One step is one event that is read here.
///
/// # Errors
///
/// `ReadStop::Stopped` where `out` stopped in this call, and `ReadStop::Memory` where memory is refused. `out` then took a
/// front of the events.
pub fn stitch<T: Tables + Drop, D: Desk, E: EventOut, L: Ledger>(
    alloc: Global,
    job: &Job<'_>,
    desk: &mut D,
    out: &mut E,
    steps: &mut Steps<L>,
) -> Result<(End, Report), ReadStop>
    requires job { IsJob (job_of job.now) }
    requires desk { D.job desk.old ≡ job_of job.now }
    requires sound { D.sound desk.old }
    ensures read { TakesSequence E.took E.broke result (job_of job.now) job.now.limits out.old out.new }
    ensures asked { Asks D.arrives D.returns result (job_of job.now) job.now.limits desk.old desk.new steps.old steps.new }
    ensures hints { IfOk result (λ r. r.1.hints ≡ 0) }
    ensures job { D.job desk.new ≡ D.job desk.old }
    ensures sound { D.sound desk.new }
    ensures desk { D.same desk.old desk.new }
    ensures same { E.same out.old out.new }
    ensures later { E.stops out.old ≤ E.stops out.new }
    ensures stopped { IsErrOf result ReadStop.Stopped → Rose (E.stops out.old) (E.stops out.new) }
{
    let mut used = Vec::new(alloc);
    let end = read_on::<T, D, E, L>(alloc, job, desk, out, steps, &mut used)?;
    Ok((end, Report { hints: 0, used }))
}

/// Reads to the end, turn by turn, and lists the bytes at which a posting is used.
fn read_on<T: Tables + Drop, D: Desk, E: EventOut, L: Ledger>(
    alloc: Global,
    job: &Job<'_>,
    desk: &mut D,
    out: &mut E,
    steps: &mut Steps<L>,
    used: &mut Vec<u64>,
) -> Result<End, ReadStop>
    requires job { IsJob (job_of job.now) }
    requires desk { D.job desk.old ≡ job_of job.now }
    requires sound { D.sound desk.old }
    requires none { used.old.items ≡ [] }
    ensures read { TakesSequence E.took E.broke (reported result (record { hints = 0; used = used.new })) (job_of job.now) job.now.limits out.old out.new }
    ensures asked { Asks D.arrives D.returns (reported result (record { hints = 0; used = used.new })) (job_of job.now) job.now.limits desk.old desk.new steps.old steps.new }
    ensures job { D.job desk.new ≡ D.job desk.old }
    ensures sound { D.sound desk.new }
    ensures desk { D.same desk.old desk.new }
    ensures same { E.same out.old out.new }
    ensures later { E.stops out.old ≤ E.stops out.new }
    ensures stopped { IsErrOf result ReadStop.Stopped → Rose (E.stops out.old) (E.stops out.new) }
{
    let Ok(mut reader) = Reader::<T>::new(alloc, job, Start::Body, job.limits) else {
        return Err(ReadStop::Memory);
    };
    loop {
        match reader.turn(out, steps)? {
            Turn::Went => {}
            Turn::AtFragment(byte) => {
                if let Some(end) = meet(alloc, &mut reader, byte, desk, out, used)? {
                    return Ok(end);
                }
            }
            Turn::Ended(end) => return Ok(end),
        }
    }
}
