ghost use Rattle.std.specs.Prelude.{◌≡◌, ◌≤◌, ◌+◌, false, true, IfOk, IsErrOf, OnOk};
ghost use Rattle.exi_meter.specs.Metering.{IsWithinStream};
ghost use Rattle.exi_names.specs.Events.{Rose};
ghost use Rattle.exi_processing.specs.Reading.{IsJob, IsReached, IsStartIn, LiesWithin, StandsAt, StandsAtNone, StaysReached, Turns, come_to, job_of, reading};
ghost use Rattle.exi_processing.specs.Runs.{closing, first};
ghost use Rattle.exi_processing.specs.declared.end.End.TheVariants as end;
ghost use Rattle.exi_processing.specs.Splices.{fits};

use crate::stepper::Stepper;
use exi_bits::Fault;
use exi_meter::Limits;
use exi_names::EventOut;
use exi_processing::{Asides, Came, Elements, End, Halt, Job, ReadStop, Start, Turn};
use exi_steps::Steps;
use exi_tables::Tables;
use std::alloc::{AllocError, Global};
use std::marker::Model;
use std::sync::ledger::Ledger;

/// A reader of a body or a fragment, one event at a time (EXI 1.0, section 6).
///
/// A contract sees it as a `Reading`: a configuration of sequential processing, with what is read by and what is
/// read. Behind SC it stands at the fragment, which is to be entered or spliced.
#[derive(Drop)]
pub struct Reader<'a, T: Tables + Drop> {
    pub(crate) stepper: Stepper<'a, T>,
    pub(crate) waits: bool,
}

impl<'a, T: Tables + Drop> Model for Reader<'a, T> {
    ghost use Rattle.exi_processing.specs.Handing.{fragment_in};
    ghost use Rattle.exi_processing.specs.Reading.{Reading};

    ghost Value = { Reading };

    ghost use Rattle.exi_names.proofs.Codes.{representation_code};
    ghost use Rattle.std.specs.Coded.{codes};

    ghost coded = { Prim.hlevel (codes, representation_code) };

    ghost view = { λ r. record {
      setting = r.stepper.setting;
      bytes = r.stepper.bytes;
      config = fragment_in r.waits r.stepper.setting r.stepper.config;
      waits = r.waits;
    } };
}

impl<'a, T: Tables + Drop> Reader<'a, T> {
    /// A reader that stands where a job begins, with limits of its own.
    ///
    /// # Errors
    ///
    /// `AllocError` where memory is refused.
    pub fn new(
        alloc: Global,
        job: &Job<'a>,
        start: Start,
        limits: Limits,
    ) -> Result<Reader<'a, T>, AllocError>
        requires job { IsJob (job_of job.now) }
        requires start { IsStartIn (job_of job.now) start }
        ensures first { IfOk result (λ r. r ≡ reading (job_of job.now) (first (job_of job.now) start limits) false) }
        ensures reached { IfOk result IsReached }
        ensures within { IfOk result (λ r. IsWithinStream limits) }
    {
        Ok(Reader {
            stepper: Stepper::new(alloc, job, start, limits)?,
            waits: false,
        })
    }

    /// One turn: reads one event, counts one step, and hands at most one event on. It has to stand where turns
    /// lead from a job's first place, and not at a fragment that is to be entered; so it does where no turn has
    /// ended or stopped, and each fragment was entered or spliced.
    ///
    /// # Errors
    ///
    /// `ReadStop::Stopped` where `out` stopped in this call, and `ReadStop::Memory` where memory is refused. The
    /// reader is then done with.
    pub fn turn<E: EventOut, L: Ledger>(
        &mut self,
        out: &mut E,
        steps: &mut Steps<L>,
    ) -> Result<Turn, ReadStop>
        requires reached { IsReached self.old }
        requires going { self.old.waits ≡ false }
        ensures turned { Turns E.took E.broke result self.old self.new out.old out.new }
        ensures reached { StaysReached result self.new }
        ensures fragment { StandsAt result self.new }
        ensures inside { LiesWithin result self.new }
        ensures setting { self.new.setting ≡ self.old.setting }
        ensures bytes { self.new.bytes ≡ self.old.bytes }
        ensures steps { steps.new ≡ steps.old + 1 }
        ensures same { E.same out.old out.new }
        ensures later { E.stops out.old ≤ E.stops out.new }
        ensures stopped { IsErrOf result ReadStop.Stopped → Rose (E.stops out.old) (E.stops out.new) }
    {
        match self.come(out, steps)? {
            Came::On => Ok(Turn::Went),
            Came::AtFragment(byte) => Ok(Turn::AtFragment(byte)),
            Came::Over => Ok(Turn::Ended(self.closing())),
            Came::Failed(fault) => Ok(Turn::Ended(self.failed(fault))),
        }
    }

    /// One turn, whose end is still to be told: a loop that only goes on makes no room for an end.
    #[inline(always)]
    pub(crate) fn come<E: EventOut, L: Ledger>(
        &mut self,
        out: &mut E,
        steps: &mut Steps<L>,
    ) -> Result<Came, ReadStop>
        requires reached { IsReached self.old }
        requires going { self.old.waits ≡ false }
        ensures turned { Turns E.took E.broke (come_to result self.new) self.old self.new out.old out.new }
        ensures reached { StaysReached (come_to result self.new) self.new }
        ensures fragment { StandsAt (come_to result self.new) self.new }
        ensures inside { LiesWithin (come_to result self.new) self.new }
        ensures none { StandsAtNone result self.new }
        ensures setting { self.new.setting ≡ self.old.setting }
        ensures bytes { self.new.bytes ≡ self.old.bytes }
        ensures steps { steps.new ≡ steps.old + 1 }
        ensures same { E.same out.old out.new }
        ensures later { E.stops out.old ≤ E.stops out.new }
        ensures stopped { IsErrOf result ReadStop.Stopped → Rose (E.stops out.old) (E.stops out.new) }
    {
        steps.tick();
        match self.stepper.step(out) {
            Ok(None) => {
                if self.stepper.has_ended() {
                    return Ok(Came::Over);
                }
                Ok(Came::On)
            }
            Ok(Some(byte)) => {
                self.waits = true;
                self.stepper.stands();
                Ok(Came::AtFragment(byte))
            }
            Err(Halt::Fault(fault)) => Ok(Came::Failed(fault)),
            Err(Halt::Memory) => Err(ReadStop::Memory),
            Err(Halt::Stopped) => Err(ReadStop::Stopped),
        }
    }

    /// The end of a turn that came to all that is read.
    #[cold]
    #[inline(never)]
    pub(crate) fn closing(&mut self) -> End
        requires going { self.old.waits ≡ false }
        ensures end { result ≡ closing self.old.config.start self.old.bytes self.old.config }
        ensures setting { self.new.setting ≡ self.old.setting }
        ensures bytes { self.new.bytes ≡ self.old.bytes }
    {
        self.stepper.closing()
    }

    /// The end of a turn that failed by this fault.
    #[cold]
    #[inline(never)]
    pub(crate) fn failed(&mut self, fault: Fault) -> End
        requires going { self.old.waits ≡ false }
        ensures end { result ≡ end.Fault fault self.old.config.meter.used self.old.config.root }
        ensures setting { self.new.setting ≡ self.old.setting }
        ensures bytes { self.new.bytes ≡ self.old.bytes }
    {
        self.stepper.failed(fault)
    }

    /// Goes into the fragment at which it stands, which is then read from here. It has to stand at one.
    ///
    /// # Errors
    ///
    /// `AllocError` where memory is refused. The reader is then done with.
    pub fn enter(&mut self) -> Result<(), AllocError>
        requires reached { IsReached self.old }
        requires at_fragment { self.old.waits ≡ true }
        ensures same { OnOk result (self.new ≡ record self.old { waits = false }) }
        ensures reached { OnOk result (IsReached self.new) }
        ensures setting { self.new.setting ≡ self.old.setting }
        ensures bytes { self.new.bytes ≡ self.old.bytes }
    {
        self.stepper.enter()?;
        self.waits = false;
        Ok(())
    }

    /// Whether what came of the fragment may be taken: it did not end by a limit, and what it charged fits.
    /// Takes no memory.
    pub fn fits(&self, end: &End) -> bool
        ensures { result ≡ fits self.now.config end.now }
    {
        self.stepper.fits(end)
    }
}
