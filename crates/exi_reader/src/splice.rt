ghost use Rattle.std.specs.Prelude.{◌≡◌, ◌≤◌, ◌<◌, ◌+◌, ◌*◌, true, length};
ghost use Rattle.exi_meter.specs.Metering.{IsWithin};
ghost use Rattle.exi_processing.specs.Changes.{innermost, put_aside, same_texts, texts_of};
ghost use Rattle.exi_processing.specs.Joins.{CanSplice, IsPlaceBehind, JoinedAs};
ghost use Rattle.exi_processing.specs.Reading.{GoesOnReached, IsOutcome, IsReached, SplicedAs};
ghost use Rattle.exi_processing.specs.Splices.{fits, on_behind, other_root, spliced};
ghost use Rattle.exi_tables.specs.Partitions.{IsName};

use crate::reader::Reader;
use crate::stepper::Stepper;
use exi_bits::{Fault, Kind};
use exi_names::QName;
use exi_processing::{End, Spliced, has_texts, innermost};
use exi_tables::Tables;

impl<'a, T: Tables + Drop> Stepper<'a, T> {
    /// What holds wherever it stands.
    pub fn stands(&self)
        ensures place { self.now.config.place ≤ 8 * length self.now.bytes }
        ensures meter { IsWithin self.now.config.meter }
    {
        let _ = self.input.at();
        let _ = self.meter.used();
    }

    /// Whether the innermost element has this name.
    fn is_in(&self, name: &QName) -> bool
        requires { IsName self.now.config.tables (innermost self.now.config.elements) }
        ensures { result ≡ same_texts (texts_of self.now.config.tables (innermost self.now.config.elements)) name.now }
    {
        has_texts(&self.tables, innermost(&self.elements), name.as_ref())
    }

    /// The end by another root, which is charged.
    fn other_root(&mut self, name: &QName) -> End
        requires few { self.old.config.meter.used.text + (length name.now.uri + length name.now.local) ≤ self.old.config.meter.limits.text }
        ensures end { result ≡ other_root self.old.config name.now }
        ensures setting { self.new.setting ≡ self.old.setting }
        ensures bytes { self.new.bytes ≡ self.old.bytes }
    {
        let bit = self.input.at();
        let units = u128::from(name.uri.count()) + u128::from(name.local.count());
        self.meter.text(units);
        self.failed(Fault {
            kind: Kind::ScRoot,
            bit,
        })
    }

    /// Behind a fragment of the innermost element, with what it charged: the element has ended; or the fragment's
    /// fault.
    fn join(&mut self, end: &End) -> Spliced
        requires fitting { fits self.old.config end.now ≡ true }
        requires level { 0 < self.old.config.meter.level }
        requires place { IsPlaceBehind self.old.setting self.old.bytes end.now }
        ensures joined { JoinedAs result self.new (on_behind (put_aside self.old.setting self.old.config) end.now) }
        ensures setting { self.new.setting ≡ self.old.setting }
        ensures bytes { self.new.bytes ≡ self.old.bytes }
    {
        match end {
            End::Done { bit, tally, .. } => {
                self.input.go_to_bit(*bit);
                self.meter.add(tally);
                self.meter.leave();
                self.elements.close();
                self.after_start = false;
                Spliced::On
            }
            End::Fault { fault, tally, .. } => {
                self.meter.add(tally);
                Spliced::Ended(self.failed(*fault))
            }
        }
    }

    /// Takes what came of the fragment that begins here.
    fn splice(&mut self, end: &End) -> Spliced
        requires can { CanSplice self.old end.now }
        ensures joined { JoinedAs result self.new (spliced (put_aside self.old.setting self.old.config) end.now) }
        ensures setting { self.new.setting ≡ self.old.setting }
        ensures bytes { self.new.bytes ≡ self.old.bytes }
    {
        let root = match end {
            End::Done { root, .. } => root,
            End::Fault { root, .. } => root,
        };
        if let Some(name) = root {
            if !self.is_in(name) {
                return Spliced::WrongRoot(self.other_root(name));
            }
        }
        self.join(end)
    }
}

impl<'a, T: Tables + Drop> Reader<'a, T> {
    /// Takes what came of the fragment at which it stands, as if it had read the fragment. The fragment's events
    /// are for the caller to hand on: those of a fragment of this element, and none where the answer is
    /// `WrongRoot`.
    ///
    /// It has to stand at a fragment, `end` has to be how reading by itself from the fragment's byte ended, under
    /// any limits, and has to fit. Takes no memory.
    ///
    /// Where it goes on, what is charged is what it charged and what the fragment did, the element that the
    /// fragment stands for has ended, and string tables and learned productions are those that stood at SC. Where
    /// it has ended, it is done with.
    pub fn splice(&mut self, end: &End) -> Spliced
        requires reached { IsReached self.old }
        requires at_fragment { self.old.waits ≡ true }
        requires outcome { IsOutcome self.old end.now }
        requires fitting { fits self.old.config end.now ≡ true }
        ensures spliced { SplicedAs result self.old self.new end.now }
        ensures reached { GoesOnReached result self.new }
        ensures setting { self.new.setting ≡ self.old.setting }
        ensures bytes { self.new.bytes ≡ self.old.bytes }
    {
        self.stepper.stands();
        self.waits = false;
        self.stepper.splice(end)
    }
}
