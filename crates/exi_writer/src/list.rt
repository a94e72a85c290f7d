ghost use Rattle.std.specs.Prelude.{◌≡◌, ◌+◌, ◌-◌, ◌<◌, ◌≤◌, ◌^◌, [], false, length, IfOk, IsSome, OnOk};
ghost use Rattle.exi_bits.specs.Written.{IsWholeBytes};
ghost use Rattle.exi_gram.specs.Switches.{align_of};
ghost use Rattle.exi_names.specs.Events.{happens};
ghost use Rattle.exi_writing.specs.Pruned.{pruned};
ghost use Rattle.exi_writer.specs.Writing.{Answers, Begins, MayGoOn, MayTake, PutsWhole, Takes, fault_of, steps_of};

use crate::fault::WriteFault;
use crate::start::WriteStart;
use crate::writer::Writer;
use exi_bits::BitOut;
use exi_gram::Book;
use exi_meter::Limits;
use exi_names::Event;
use exi_steps::Steps;
use exi_tables::Tables;
use exi_toll::PutStop;
use std::alloc::{AllocError, Global};
use std::marker::Model;
use std::sync::ledger::Ledger;

/// Why a list was not written: at the event of this number.
fn fault_at(event: u64, stop: PutStop) -> WriteFault
    ensures { result ≡ fault_of event stop }
{
    match stop {
        PutStop::NotDerived => WriteFault::NotDerived { event },
        PutStop::Limit(kind) => WriteFault::Limit { event, kind },
        PutStop::Memory => WriteFault::Memory,
    }
}

/// Writes one event of a list, and goes into the fragment that it begins.
#[inline(always)]
fn put_one<T: Tables + Drop, L: Ledger>(
    writer: &mut Writer<'_, T>,
    event: &Event,
    steps: &mut Steps<L>,
) -> Result<(), PutStop>
    requires going { writer.old.waits ≡ false }
    requires composed { MayGoOn writer.old }
    ensures put { PutsWhole result writer.old writer.new (pruned writer.old.setting.options (happens event.now)) }
    ensures composed { OnOk result (MayGoOn writer.new) }
    ensures going { OnOk result (writer.new.waits ≡ false) }
    ensures steps { steps.new ≡ steps.old + steps_of (pruned writer.old.setting.options (happens event.now)) }
{
    if writer.put(event, steps)? {
        writer.enter()?;
    }
    Ok(())
}

/// A writer of a list of events, one event after another. Behind the first that is refused it takes no more.
///
/// A contract sees it as a `Listing`: what is written, the number of the next event, counted from 1, and why no more is taken.
#[derive(Drop)]
pub struct ListWriter<'a, T: Tables + Drop> {
    writer: Writer<'a, T>,
    number: u64,
    refused: Option<WriteFault>,
}

impl<'a, T: Tables + Drop> Model for ListWriter<'a, T> {
    ghost use Rattle.exi_writer.specs.Writing.{Listing};

    ghost Value = { Listing };

    ghost use Rattle.exi_names.proofs.Codes.{representation_code};
    ghost use Rattle.std.specs.Coded.{codes};

    ghost coded = { Prim.hlevel (codes, representation_code) };

    ghost view = { λ l. record { written = l.writer; number = l.number; refused = l.refused } };
}

impl<'a, T: Tables + Drop> ListWriter<'a, T> {
    /// No event of a list yet, whose body begins behind these bits. Under byte alignment they have to be whole bytes.
    ///
    /// # Errors
    ///
    /// `AllocError` where memory is refused.
    pub fn new(
        alloc: Global,
        book: &'a Book,
        limits: Limits,
        head: BitOut,
    ) -> Result<ListWriter<'a, T>, AllocError>
        requires aligned { IsWholeBytes (align_of book.now.options) head }
        ensures begins { IfOk result (λ list. Begins head book.now limits list) }
        ensures going { IfOk result MayTake }
        ensures number { IfOk result (λ list. list.number ≡ 1) }
    {
        match Writer::new(alloc, book, limits, WriteStart::Body, head) {
            Ok(writer) => Ok(ListWriter {
                writer,
                number: 1,
                refused: None,
            }),
            Err(_) => Err(AllocError),
        }
    }

    /// The next event of the list. Behind one that is refused it is not looked at. At most one step is counted.
    pub fn push<L: Ledger>(&mut self, event: &Event, steps: &mut Steps<L>)
        requires going { MayTake self.old }
        requires room { self.old.number < 2 ^ 64 - 1 }
        ensures taken { Takes self.old (happens event.now) self.new }
        ensures going { MayTake self.new }
        ensures number { self.new.number ≤ self.old.number + 1 }
        ensures steps { steps.new ≤ steps.old + 1 }
        ensures refused { IsSome self.old.refused → self.new ≡ self.old }
    {
        if self.refused.is_some() {
            return;
        }
        match put_one(&mut self.writer, event, steps) {
            Ok(()) => self.number += 1,
            Err(stop) => self.refused = Some(fault_at(self.number, stop)),
        }
    }

    /// Why no more is taken, where an event was refused.
    pub fn refused(&self) -> Option<WriteFault>
        ensures { result ≡ self.now.refused }
    {
        self.refused
    }

    /// The bits: the list ends here.
    ///
    /// # Errors
    ///
    /// The first refusal: `WriteFault::NotDerived` or `WriteFault::Limit` with the number of the first event that is not derived
    /// or passes a limit, or `WriteFault::Memory` where memory was refused. Where the list ends before the body does,
    /// `NotDerived` with the number behind its last.
    pub fn finish(self) -> Result<BitOut, WriteFault>
        ensures { Answers result self.entry [] }
    {
        if let Some(fault) = self.refused {
            return Err(fault);
        }
        let event = self.number;
        let writer = self.writer;
        if writer.ended() {
            return Ok(writer.finish());
        }
        Err(WriteFault::NotDerived { event })
    }
}
