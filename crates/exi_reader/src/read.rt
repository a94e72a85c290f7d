ghost use Rattle.std.specs.Prelude.{◌≡◌, ◌≤◌, IsErrOf};
ghost use Rattle.exi_names.specs.Events.{Rose};
ghost use Rattle.exi_processing.specs.Reading.{IsJob, IsStartIn, Sequences, job_of};

use crate::reader::Reader;
use exi_meter::Limits;
use exi_names::EventOut;
use exi_processing::{Came, End, Job, ReadStop, Start};
use exi_steps::Steps;
use exi_tables::Tables;
use std::alloc::Global;
use std::sync::ledger::Ledger;

/// Reads a body or a fragment to its end: sequential processing (EXI 1.0, section 6). `out` takes the events, and
/// each turn counts one step.
///
/// # Errors
///
/// `ReadStop::Stopped` where `out` stopped in this call, and `ReadStop::Memory` where memory is refused. `out` then
/// took a front of the events.
pub fn read_from<T: Tables + Drop, E: EventOut, L: Ledger>(
    alloc: Global,
    job: &Job<'_>,
    start: Start,
    limits: Limits,
    out: &mut E,
    steps: &mut Steps<L>,
) -> Result<End, ReadStop>
    requires job { IsJob (job_of job.now) }
    requires start { IsStartIn (job_of job.now) start }
    ensures read { Sequences E.took E.broke result (job_of job.now) start limits out.old out.new steps.old steps.new }
    ensures same { E.same out.old out.new }
    ensures later { E.stops out.old ≤ E.stops out.new }
    ensures stopped { IsErrOf result ReadStop.Stopped → Rose (E.stops out.old) (E.stops out.new) }
{
    let Ok(mut reader) = Reader::<T>::new(alloc, job, start, limits) else {
        return Err(ReadStop::Memory);
    };
    loop {
        match reader.come(out, steps)? {
            Came::On => {}
            Came::AtFragment(_) => reader.enter()?,
            Came::Over => return Ok(reader.closing()),
            Came::Failed(fault) => return Ok(reader.failed(fault)),
        }
    }
}
