ghost use Rattle.std.specs.Prelude.{◌≡◌, ◌+◌, ◌%◌, Some, false, length, true, IfOk, IsTrue, OnErr, OnOk};
ghost use Rattle.exi_gram.specs.Switches.{align_of};
ghost use Rattle.exi_meter.specs.Metering.{tally_fits};
ghost use Rattle.exi_names.specs.Events.{happens};
ghost use Rattle.exi_pen.specs.Pages.{refused_meter};
ghost use Rattle.exi_pen.specs.Steps.{left_of};
ghost use Rattle.exi_processing.specs.Runs.{has_ended};
ghost use Rattle.exi_writing.specs.Pruned.{pruned};
ghost use Rattle.exi_writing.specs.Runs.{own, written_all};
ghost use Rattle.exi_writer.specs.Writing.{CanBegin, Composes, Enters, IsAtFragment, IsPart, IsUncharged, MayGoOn, PutsOne, Starts, name_fits, spliced_behind, steps_of};

use crate::fragments::{leave_fragment, start_fragment};
use crate::start::WriteStart;
use exi_bits::BitOut;
use exi_gram::Book;
use exi_meter::{Limits, Meter, Tally};
use exi_names::Event;
use exi_pen::Pen;
use exi_processing::Start;
use exi_processing::laws::splices_are_runs;
use exi_steps::Steps;
use exi_tables::Tables;
use exi_toll::PutStop;
use exi_writing::laws::written_is_read;
use std::alloc::{AllocError, Global};
use std::marker::Model;
use std::sync::ledger::Ledger;

/// A writer of a body or a fragment, one event at a time (EXI 1.0, section 6).
///
/// A contract sees it as a `Composing`: the bits that are written, and the configuration to which reading them leads.
/// Behind SC it stands at the fragment, which is to be entered or spliced.
#[derive(Drop)]
pub struct Writer<'a, T: Tables + Drop> {
    pen: Pen<'a, T>,
    waits: bool,
}

impl<'a, T: Tables + Drop> Model for Writer<'a, T> {
    ghost use Rattle.exi_processing.specs.Handing.{fragment_in};
    ghost use Rattle.exi_writer.specs.Writing.{Composing};

    ghost Value = { Composing };

    ghost use Rattle.exi_names.proofs.Codes.{representation_code};
    ghost use Rattle.std.specs.Coded.{codes};

    ghost coded = { Prim.hlevel (codes, representation_code) };

    ghost view = { λ w. record {
      setting = w.pen.setting;
      bits = w.pen.bits;
      config = fragment_in w.waits w.pen.setting w.pen.config;
      waits = w.waits;
    } };
}

impl<'a, T: Tables + Drop> Writer<'a, T> {
    /// A writer that stands where a body begins, behind these bits, with limits of its own; or in a fragment, its SD and
    /// the SE of its element written. Under byte alignment, and for a fragment, the bits have to be whole bytes.
    ///
    /// # Errors
    ///
    /// For a fragment `PutStop::NotDerived` where no production stands for the element or its name has no spelling, and
    /// else `PutStop::Limit` where the charge of the name passes. `PutStop::Memory` where memory is refused.
    pub fn new(
        alloc: Global,
        book: &'a Book,
        limits: Limits,
        start: WriteStart<'_>,
        head: BitOut,
    ) -> Result<Writer<'a, T>, PutStop>
        requires aligned { CanBegin start (align_of book.now.options) head }
        ensures starts { Starts result book.now limits start.entry head }
        ensures composed { IfOk result MayGoOn }
    {
        match start {
            WriteStart::Body => Ok(Writer {
                pen: Pen::new(alloc, book, limits, Start::Body, head)?,
                waits: false,
            }),
            WriteStart::Fragment(name) => {
                written_is_read();
                let byte = head.bytes().len() as u64;
                let mut pen = Pen::new(alloc, book, limits, Start::Fragment(byte), head)?;
                start_fragment(&mut pen, name.as_ref())?;
                Ok(Writer { pen, waits: false })
            }
        }
    }

    /// Writes one event of a list, and counts one step; an event that the options switch off is left out, and counts
    /// none. The EE that ends a fragment's element writes the fragment's ED too. True exactly where SC was written: the
    /// fragment is then to be entered or spliced.
    ///
    /// # Errors
    ///
    /// `PutStop::NotDerived` where no production stands for the event or one of its items has no spelling, and after the
    /// end; else `PutStop::Limit` where a charge of the event passes its limit; `PutStop::Memory` where memory is refused.
    /// Only [`Writer::tally`] may then be called; after `NotDerived` it has what was charged before the event, and after `Limit`
    /// all charges before that one. It has not ended then, even where it had before: no bits are given out.
    pub fn put<L: Ledger>(&mut self, event: &Event, steps: &mut Steps<L>) -> Result<bool, PutStop>
        requires going { self.old.waits ≡ false }
        requires composed { MayGoOn self.old }
        ensures put { PutsOne result self.old self.new (pruned self.old.setting.options (happens event.now)) }
        ensures composed { OnOk result (MayGoOn self.new) }
        ensures waits { IfOk result (λ b. self.new.waits ≡ b) }
        ensures fragment { IfOk result (λ b. IsTrue b → IsAtFragment self.new) }
        ensures steps { steps.new ≡ steps.old + steps_of (pruned self.old.setting.options (happens event.now)) }
        ensures refused { OnErr result (has_ended self.new.config ≡ false) }
        ensures uncharged { IsUncharged result self.old self.new }
    {
        if self.pen.prunes(event) {
            return Ok(false);
        }
        steps.tick();
        let before = self.charged();
        match self.put_left(event) {
            Ok(begins) => Ok(begins),
            Err(stop) => Err(self.refuse(stop, before)),
        }
    }

    /// Writes one event that the options leave.
    fn put_left(&mut self, event: &Event) -> Result<bool, PutStop>
        requires left { pruned self.old.setting.options (happens event.now) ≡ Some (left_of self.old.setting.options (happens event.now)) }
        requires going { self.old.waits ≡ false }
        requires composed { MayGoOn self.old }
        ensures put { PutsOne result self.old self.new (pruned self.old.setting.options (happens event.now)) }
        ensures composed { OnOk result (MayGoOn self.new) }
        ensures waits { IfOk result (λ b. self.new.waits ≡ b) }
        ensures fragment { IfOk result (λ b. IsTrue b → IsAtFragment self.new) }
    {
        written_is_read();
        if self.pen.has_ended() {
            return Err(PutStop::NotDerived);
        }
        if self.pen.step(event)? {
            self.waits = true;
            return Ok(true);
        }
        leave_fragment(&mut self.pen)?;
        Ok(false)
    }

    /// What was charged, within which limits, and how many elements are open.
    fn charged(&self) -> Meter
        ensures { result ≡ self.now.config.meter }
    {
        self.pen.charged()
    }

    /// Behind a refusal, before which so much was charged: it has not ended, so that no bits are given out, and an event for
    /// which no production stands has charged nothing.
    #[cold]
    fn refuse(&mut self, stop: PutStop, before: Meter) -> PutStop
        ensures stop { result ≡ stop }
        ensures refused { has_ended self.new.config ≡ false }
        ensures charged { self.new.config.meter ≡ refused_meter stop before self.old.config.meter }
    {
        self.pen.give_up(stop, before);
        stop
    }

    /// Goes into the fragment at which it stands: its SD, and SE of the element for which it stands. It has to stand at one.
    ///
    /// # Errors
    ///
    /// `PutStop::Limit` exactly where the charge of that element's name passes the limit of text, and `PutStop::Memory` where memory
    /// is refused; `PutStop::NotDerived` never, since that name was written before.
    /// Only [`Writer::tally`] may then be called, as after a refusal of [`Writer::put`].
    pub fn enter(&mut self) -> Result<(), PutStop>
        requires waits { self.old.waits ≡ true }
        requires at_fragment { IsAtFragment self.old }
        ensures entered { Composes result self.old self.new false (written_all self.old.setting self.old.config (own self.old.config)) }
        ensures name { Enters result (name_fits self.old.config.meter self.old.config.aside) }
        ensures composed { OnOk result (MayGoOn self.new) }
        ensures waits { OnOk result (self.new.waits ≡ false) }
        ensures refused { OnErr result (has_ended self.new.config ≡ false) }
        ensures uncharged { IsUncharged result self.old self.new }
    {
        let before = self.charged();
        match self.go_in() {
            Ok(()) => Ok(()),
            Err(stop) => Err(self.refuse(stop, before)),
        }
    }

    /// Goes into the fragment.
    fn go_in(&mut self) -> Result<(), PutStop>
        requires waits { self.old.waits ≡ true }
        requires at_fragment { IsAtFragment self.old }
        ensures entered { Composes result self.old self.new false (written_all self.old.setting self.old.config (own self.old.config)) }
        ensures composed { OnOk result (MayGoOn self.new) }
        ensures waits { OnOk result (self.new.waits ≡ false) }
    {
        written_is_read();
        let name = self.pen.innermost_name()?;
        self.pen.put_aside()?;
        self.waits = false;
        start_fragment(&mut self.pen, name.as_ref())
    }

    /// Whether what was charged apart fits. Takes no memory.
    pub fn fits(&self, tally: &Tally) -> bool
        ensures { result ≡ tally_fits self.now.config.meter tally.now }
    {
        self.pen.fits(tally)
    }

    /// Takes the bits of the fragment at which it stands, which was written apart, and what it charged. It has to stand at
    /// one, the bits have to be whole bytes, and what was charged has to fit.
    ///
    /// # Errors
    ///
    /// `AllocError` where memory is refused. Only [`Writer::tally`] may then be called; it has not ended.
    pub fn splice(&mut self, bits: &BitOut, tally: &Tally) -> Result<(), AllocError>
        requires waits { self.old.waits ≡ true }
        requires at_fragment { IsAtFragment self.old }
        requires whole { length bits.now % 8 ≡ 0 }
        requires fitting { tally_fits self.old.config.meter tally.now ≡ true }
        ensures spliced { OnOk result (self.new ≡ spliced_behind self.old bits.now tally.now) }
        ensures composed { OnOk result (IsPart self.old bits.now tally.now → MayGoOn self.new) }
        ensures refused { OnErr result (has_ended self.new.config ≡ false) }
    {
        splices_are_runs();
        self.pen.splice(bits, tally)?;
        self.waits = false;
        Ok(())
    }

    /// What was charged.
    pub fn tally(&self) -> Tally
        ensures { result ≡ self.now.config.meter.used }
    {
        self.pen.tally()
    }

    /// Whether the last ED is written, of a fragment its own.
    pub fn ended(&self) -> bool
        ensures { result ≡ has_ended self.now.config }
    {
        !self.waits && self.pen.has_ended()
    }

    /// The bits. The last ED has to be written: of a list that is refused no bits are given out.
    pub fn finish(self) -> BitOut
        requires ended { has_ended self.config ≡ true }
        ensures { result ≡ self.entry.bits }
    {
        let pen = self.pen;
        pen.into_bits()
    }
}
