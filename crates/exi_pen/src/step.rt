ghost use Rattle.std.specs.Prelude.{◌≡◌, None, Some, false, IfOk, if◌then◌else◌};
ghost use Rattle.exi_meter.specs.Metering.{tally_fits};
ghost use Rattle.exi_names.specs.Events.{happens};
ghost use Rattle.exi_processing.specs.Changes.{innermost, texts_of};
ghost use Rattle.exi_processing.specs.Handing.{alone_of};
ghost use Rattle.exi_processing.specs.Plans.{alone_in};
ghost use Rattle.exi_processing.specs.Runs.{has_ended};
ghost use Rattle.exi_tables.specs.Partitions.{IsName};
ghost use Rattle.exi_writing.specs.OneEvent.{written};
ghost use Rattle.exi_pen.specs.Pages.{IsReady, Writes, by_chosen};
ghost use Rattle.exi_writing.specs.Pruned.{pruned};
ghost use Rattle.exi_pen.specs.Steps.{StepsAs, begins_fragment, left_of};

use crate::ends::copy_name;
use crate::pen::Pen;
use bitflags::Flags;
use exi_bits::BitOut;
use exi_gram::{OptionFlags, Options};
use exi_meter::{Meter, Tally};
use exi_names::{Event, QName};
use exi_processing::{Alone, Outer, alone_in, innermost};
use exi_tables::Tables;
use exi_toll::PutStop;
use std::alloc::AllocError;

/// Whether the options switch an event off (EXI 1.0, section 5.4).
#[tactic(auto, unfolding(exi_writing::specs::Pruned::pruned))]
fn is_pruned(options: &Options, event: &Event) -> bool
    ensures { pruned options.now (happens event.now) ≡ (if result then None else Some (left_of options.now (happens event.now))) }
{
    match event {
        Event::Ns { .. } => !options.flags.contains(OptionFlags::PREFIXES),
        Event::Sc { .. } => !options.flags.contains(OptionFlags::SELF_CONTAINED),
        Event::Cm(_) => !options.flags.contains(OptionFlags::COMMENTS),
        Event::Pi { .. } => !options.flags.contains(OptionFlags::PIS),
        Event::Dt { .. } | Event::Er(_) => !options.flags.contains(OptionFlags::DTD),
        Event::Sd | Event::Ed | Event::Se(_) | Event::Ee | Event::At(_, _) | Event::Ch(_) => false,
    }
}

/// Whether an event is SC.
fn begins_fragment(event: &Event) -> bool
    ensures { result ≡ begins_fragment (happens event.now) }
{
    match event {
        Event::Sc { .. } => true,
        Event::Sd
        | Event::Ed
        | Event::Se(_)
        | Event::Ee
        | Event::At(_, _)
        | Event::Ch(_)
        | Event::Ns { .. }
        | Event::Cm(_)
        | Event::Pi { .. }
        | Event::Dt { .. }
        | Event::Er(_) => false,
    }
}

impl<'a, T: Tables + Drop> Pen<'a, T> {
    /// Whether the options switch an event off.
    pub fn prunes(&self, event: &Event) -> bool
        ensures { pruned self.now.setting.options (happens event.now) ≡ (if result then None else Some (left_of self.now.setting.options (happens event.now))) }
    {
        is_pruned(self.book.options(), event)
    }

    /// Where it is in a fragment that stands for one element, outside of that.
    pub fn alone(&self) -> Alone
        ensures { alone_of result ≡ alone_in self.now.config.elements self.now.config.outer }
    {
        alone_in(&self.elements, self.outer)
    }

    /// Whether the last ED is written.
    pub fn has_ended(&self) -> bool
        ensures { result ≡ has_ended self.now.config }
    {
        match self.outer {
            Outer::Ended => true,
            Outer::Book { .. }
            | Outer::FragmentStart
            | Outer::FragmentContent
            | Outer::AloneStart
            | Outer::AloneFirst
            | Outer::AloneOver => false,
        }
    }

    /// Whether what was charged apart fits.
    pub fn fits(&self, tally: &Tally) -> bool
        ensures { result ≡ tally_fits self.now.config.meter tally.now }
    {
        self.meter.fits(tally)
    }

    /// What was charged, within which limits, and how many elements are open.
    pub fn charged(&self) -> Meter
        ensures { result ≡ self.now.config.meter }
    {
        self.meter
    }

    /// What was charged.
    pub fn tally(&self) -> Tally
        ensures { result ≡ self.now.config.meter.used }
    {
        self.meter.used()
    }

    /// The bits.
    pub fn into_bits(self) -> BitOut
        ensures { result ≡ self.entry.bits }
    {
        self.out
    }

    /// The name of the innermost element, in memory of its own.
    pub fn innermost_name(&self) -> Result<QName, AllocError>
        requires name { IsName self.now.config.tables (innermost self.now.config.elements) }
        ensures { IfOk result (λ n. n ≡ texts_of self.now.config.tables (innermost self.now.config.elements)) }
    {
        copy_name(&self.tables, innermost(&self.elements))
    }

    /// Writes one event that the options leave. Answers whether it is SC.
    pub fn step(&mut self, event: &Event) -> Result<bool, PutStop>
        requires ready { IsReady self.old }
        requires going { has_ended self.old.config ≡ false }
        ensures steps { StepsAs (begins_fragment (happens event.now)) result self.old self.new (written self.old.setting self.old.config (left_of self.old.setting.options (happens event.now))) }
        ensures told { IfOk result (λ b. b ≡ begins_fragment (happens event.now)) }
    {
        if begins_fragment(event) {
            self.self_contained()?;
            return Ok(true);
        }
        self.plain(event)?;
        Ok(false)
    }

    /// Writes one event that the options leave and that is no SC.
    fn plain(&mut self, event: &Event) -> Result<(), PutStop>
        requires ready { IsReady self.old }
        requires plain { begins_fragment (happens event.now) ≡ false }
        ensures writes { Writes result self.old self.new (by_chosen self.old.setting self.old.config (left_of self.old.setting.options (happens event.now))) }
    {
        match event {
            Event::Sd => self.start_document(),
            Event::Ed => self.end_document(),
            Event::Se(name) => self.element(name.as_ref()),
            Event::Ee => self.end_element(),
            Event::At(name, value) => self.attribute(name.as_ref(), value),
            Event::Ch(value) => self.characters(value),
            Event::Ns {
                uri,
                prefix,
                element,
            } => self.declaration(uri, prefix, *element),
            Event::Sc { .. } => Err(PutStop::NotDerived),
            Event::Cm(text) => self.comment(text),
            Event::Pi { target, text } => self.instruction(target, text),
            Event::Dt {
                name,
                public,
                system,
                text,
            } => self.document_type(name, public, system, text),
            Event::Er(name) => self.entity(name),
        }
    }
}
