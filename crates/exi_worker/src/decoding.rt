// How the fragment of a hint is read onto a tape.
ghost use Rattle.std.specs.Prelude.{◌≡◌, ◌≤◌, ℕ, length, IfOk};
ghost use Rattle.exi_pool.specs.Passes.{IsOf};
ghost use Rattle.exi_processing.specs.Reading.{IsJob, Sequences, job_of};
ghost use Rattle.exi_processing.specs.Splices.{IsFragmentOutcome};
ghost use Rattle.exi_processing.specs.declared.start.Start.TheVariants as start;
ghost use Rattle.exi_tape.specs.Lists.{events_of};
ghost use Rattle.exi_worker.specs.Hands.{HasInHand, HasTaken, WasDry};
ghost use Rattle.exi_worker.specs.Outcomes.{IsPosting, worker_bounds};

use crate::fate::Loss;
use crate::limits::worker_limits;
use crate::posting::Posting;
use exi_names::EventOut;
use exi_pool::{Pool, PoolPass};
use exi_processing::{End, Job, ReadStop, Start};
use exi_reader::read_from;
use exi_steps::Steps;
use exi_tables::Tables;
use exi_tape::{Tape, TapeOut};
use std::alloc::Global;
use std::marker::Brand;
use std::sync::Wait;
use std::sync::ledger::{Blank, Ledger};

/// Reads the fragment that begins at this byte, under the limits of a worker, with a counter of steps that is not looked at.
fn read_fragment<T: Tables + Drop, E: EventOut, L: Ledger>(
    alloc: Global,
    job: &Job<'_>,
    byte: u64,
    out: &mut E,
    blank: Blank,
) -> Result<End, ReadStop>
    requires name { blank.name ≡ L.name }
    requires parts { (blank.parts ≡ L.parts) × (blank.parts ≡ 1) }
    requires job { IsJob (job_of job.now) }
    requires within { byte ≤ length job.now.bytes.now }
    ensures read { (n : ℕ) × Sequences E.took E.broke result (job_of job.now) (start.Fragment byte) worker_bounds out.old out.new 0 n }
    ensures same { E.same out.old out.new }
{
    let mut steps = Steps::<L>::of(blank);
    read_from::<T, E, L>(
        alloc,
        job,
        Start::Fragment(byte),
        worker_limits(),
        out,
        &mut steps,
    )
}

/// Reads the fragment that begins at this byte onto a tape, under the limits of a worker. The tape has the pages that were
/// taken for it, also where reading stopped: where the pool had no page left, or memory was refused.
fn read_onto_tape<R: Wait, T: Tables + Drop>(
    rt: &R,
    alloc: Global,
    job: &Job<'_>,
    byte: u64,
    pool: &Pool,
    pass: &mut PoolPass,
) -> (Tape, Result<End, ReadStop>)
    requires job { IsJob (job_of job.now) }
    requires within { byte ≤ length job.now.bytes.now }
    requires pass { IsOf pool.now pass.old }
    ensures pass { IsOf pool.now pass.new }
    ensures taken { HasTaken pass.old result.0 pass.new }
    ensures outcome { IfOk result.1 (IsFragmentOutcome (job_of job.now) byte worker_bounds (events_of result.0)) }
{
    let mut out = TapeOut {
        rt,
        tape: Tape::new(),
        pool,
        pass,
        stops: 0,
    };
    let read = read_fragment::<T, TapeOut<'_, R>, Brand>(alloc, job, byte, &mut out, Blank::new(1));
    let TapeOut {
        rt: _,
        tape,
        pool: _,
        pass: _pass,
        stops: _,
    } = out;
    (tape, read)
}

/// What came of the fragment that begins at this byte, read by itself under the limits of a worker. Where there is no
/// posting, the pages that were taken for it went back.
pub(crate) fn decode<R: Wait, T: Tables + Drop>(
    rt: &R,
    alloc: Global,
    job: &Job<'_>,
    byte: u64,
    pool: &Pool,
    pass: &mut PoolPass,
) -> Result<Posting, Loss>
    requires job { IsJob (job_of job.now) }
    requires pass { IsOf pool.now pass.old }
    ensures pass { IsOf pool.now pass.new }
    ensures outcome { IfOk result (IsPosting (job_of job.now) byte worker_bounds) }
    ensures pages { HasInHand pass.old result pass.new }
    ensures dry { WasDry result pass.old pass.new }
{
    if byte > job.bytes.len() as u64 {
        return Err(Loss::Outside);
    }
    let before = pass.dry();
    let (tape, read) = read_onto_tape::<R, T>(rt, alloc, job, byte, pool, pass);
    match read {
        Ok(end) => Ok(Posting { end, tape }),
        Err(_) => {
            tape.give_back(rt, pool, pass);
            if before < pass.dry() {
                Err(Loss::Full)
            } else {
                Err(Loss::Memory)
            }
        }
    }
}
