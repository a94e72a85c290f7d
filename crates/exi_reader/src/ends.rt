ghost use Rattle.std.specs.Prelude.{◌≡◌, ◌<◌, ◌≤◌, ◌^◌, ◌∷◌, [], length, IfOk, OnOk};
ghost use Rattle.exi_bits.specs.Bits.{IsBytes};
ghost use Rattle.exi_builtin.specs.Learning.{nothing_learned};
ghost use Rattle.exi_meter.specs.Metering.{IsWithinStream};
ghost use Rattle.exi_names.specs.StartTables.{IsStart};
ghost use Rattle.exi_processing.specs.Configurations.{IsSetting, first_tables};
ghost use Rattle.exi_processing.specs.Changes.{innermost, put_aside, resumed};
ghost use Rattle.exi_processing.specs.Handing.{standing, with_config};
ghost use Rattle.exi_processing.specs.Reading.{IsJob, IsStartIn, job_of};
ghost use Rattle.exi_processing.specs.Runs.{closing, first, has_ended};
ghost use Rattle.exi_processing.specs.Splices.{fits, is_limit};
ghost use Rattle.exi_processing.specs.declared.end.End.TheVariants as end;
ghost use Rattle.exi_tables.specs.Partitions.{IsName};

use crate::stepper::Stepper;
use exi_bits::{BitIn, Fault, Kind};
use exi_builtin::{LookUp, Overlay};
use exi_gram::Book;
use exi_meter::{Limits, Meter};
use exi_processing::{
    Aside, Asides, Elements, End, Job, Outer, Spare, Start, first_outer, first_tables,
    tables_at_start,
};
use exi_tables::Tables;
use std::alloc::{AllocError, Global};
use std::mem;

/// The bits of the input, of which each byte is one.
fn input_of(bytes: &[u8]) -> BitIn<'_>
    requires few { length bytes.now ≤ 2 ^ 32 }
    ensures input { result ≡ record { bytes = bytes.now; place = 0 } }
    ensures octets { IsBytes bytes.now }
{
    BitIn::new(bytes)
}

impl<'a, T: Tables + Drop> Stepper<'a, T> {
    /// Where a job begins.
    pub fn new(
        alloc: Global,
        job: &Job<'a>,
        start: Start,
        limits: Limits,
    ) -> Result<Stepper<'a, T>, AllocError>
        requires job { IsJob (job_of job.now) }
        requires start { IsStartIn (job_of job.now) start }
        ensures first { IfOk result (λ s. s ≡ standing (job_of job.now) (first (job_of job.now) start limits)) }
        ensures within { IfOk result (λ s. IsWithinStream limits) }
        ensures book { IfOk result (λ s. IsSetting job.now.book.now) }
        ensures names { IfOk result (λ s. IsStart job.now.book.now.schema.names) }
        ensures octets { IfOk result (λ s. IsBytes job.now.bytes.now) }
    {
        let first = first_tables(alloc, job.book)?;
        let mut input = input_of(job.bytes);
        match start {
            Start::Body => input.go_to_bit(job.body),
            Start::Fragment(byte) => input.go(byte),
        }
        Ok(Stepper {
            alloc,
            book: job.book,
            start,
            input,
            meter: Meter::new(limits),
            tables: tables_at_start(alloc, job.book, &first)?,
            elements: Elements::new(alloc),
            outer: first_outer(job.book.schema().is_known(), job.book.options(), start),
            overlay: Overlay::new(alloc, LookUp::ByCode),
            after_start: false,
            root: None,
            aside: Asides::new(alloc),
            first,
            spare: None,
        })
    }

    /// Whether the last event was read.
    #[inline(always)]
    pub fn has_ended(&self) -> bool
        ensures { result ≡ has_ended self.now.config }
    {
        match self.outer {
            Outer::Ended => true,
            Outer::Book { .. }
            | Outer::FragmentStart
            | Outer::FragmentContent
            | Outer::AloneStart
            | Outer::AloneFirst
            | Outer::AloneOver => false,
        }
    }

    /// The end behind the last event. Behind a body the rest of the last byte may hold anything, and a whole byte
    /// more is at fault.
    #[cold]
    #[inline(never)]
    pub fn closing(&mut self) -> End
        ensures end { result ≡ closing self.old.config.start self.old.bytes self.old.config }
        ensures setting { self.new.setting ≡ self.old.setting }
        ensures bytes { self.new.bytes ≡ self.old.bytes }
    {
        let bit = self.input.at();
        if self.start == Start::Body {
            self.input.skip_to_byte();
            if self.input.left() != 0 {
                let fault = Fault {
                    kind: Kind::TrailingBytes,
                    bit: self.input.at(),
                };
                return self.failed(fault);
            }
        }
        End::Done {
            bit,
            tally: self.meter.used(),
            root: mem::replace(&mut self.root, None),
        }
    }

    /// The end by a fault.
    #[cold]
    #[inline(never)]
    pub fn failed(&mut self, fault: Fault) -> End
        ensures end { result ≡ end.Fault fault self.old.config.meter.used self.old.config.root }
        ensures setting { self.new.setting ≡ self.old.setting }
        ensures bytes { self.new.bytes ≡ self.old.bytes }
    {
        End::Fault {
            fault,
            tally: self.meter.used(),
            root: mem::replace(&mut self.root, None),
        }
    }

    /// String tables, learned grammars and open elements as a fragment begins with them, in the room that the last one left.
    fn fresh(&mut self) -> Result<(T, Overlay, Elements), AllocError>
        ensures tables { IfOk result (λ parts. T.held parts.0 ≡ first_tables self.old.setting) }
        ensures learned { IfOk result (λ parts. parts.1 ≡ nothing_learned) }
        ensures elements { IfOk result (λ parts. parts.2 ≡ []) }
        ensures same { self.new ≡ self.old }
    {
        match self.spare.take() {
            Some(spare) => spare.into_parts(self.book, &self.first),
            None => Ok((
                tables_at_start(self.alloc, self.book, &self.first)?,
                Overlay::new(self.alloc, LookUp::ByCode),
                Elements::new(self.alloc),
            )),
        }
    }

    /// Takes up the body that was put aside, where there is one. What the fragment used is kept for the next one.
    pub fn resume(&mut self, body: Aside<T>)
        requires level { 0 < self.old.config.meter.level }
        ensures resumed { self.new ≡ with_config self.old (resumed (body ∷ self.old.config.aside) self.old.config) }
    {
        let (tables, overlay, elements, outer) = body.into_parts();
        self.meter.leave();
        let tables = mem::replace(&mut self.tables, tables);
        let overlay = mem::replace(&mut self.overlay, overlay);
        let elements = mem::replace(&mut self.elements, elements);
        self.outer = outer;
        self.spare = Some(Spare::of(tables, overlay, elements));
    }

    /// Puts the body aside, and stands in the fragment that begins here.
    pub fn enter(&mut self) -> Result<(), AllocError>
        requires name { IsName self.old.config.tables (innermost self.old.config.elements) }
        ensures aside { OnOk result (self.new ≡ with_config self.old (put_aside self.old.setting self.old.config)) }
        ensures setting { self.new.setting ≡ self.old.setting }
        ensures bytes { self.new.bytes ≡ self.old.bytes }
    {
        let (tables, overlay, elements) = self.fresh()?;
        let tables = mem::replace(&mut self.tables, tables);
        let overlay = mem::replace(&mut self.overlay, overlay);
        let elements = mem::replace(&mut self.elements, elements);
        let body = Aside::new(tables, overlay, elements, self.outer);
        self.outer = Outer::AloneStart;
        self.aside.push(body)
    }

    /// Whether an outcome did not end by a limit, and its charges fit.
    pub fn fits(&self, end: &End) -> bool
        ensures { result ≡ fits self.now.config end.now }
    {
        match end {
            End::Done { tally, .. } => self.meter.fits(tally),
            End::Fault { fault, tally, .. } => !is_limit(fault.kind) && self.meter.fits(tally),
        }
    }
}

/// Whether a fault is that of a limit.
fn is_limit(kind: Kind) -> bool
    ensures { result ≡ is_limit kind }
{
    matches!(kind, Kind::EventLimit | Kind::TextLimit | Kind::DepthLimit)
}
