ghost use Rattle.std.specs.Prelude.{◌≡◌, ◌<◌, IsTrue};
ghost use Rattle.std.specs.Bool.{OnTrue, OnFalse};
ghost use Rattle.exi_meter.specs.Metering.{
  IsWithin,
  nothing_used,
  event_fits,
  with_event,
  text_fits,
  with_text,
  level_fits,
  with_level,
  without_level,
  tally_fits,
  with_tally,
};

use crate::limits::Limits;
use crate::tally::Tally;
use std::marker::Model;

/// What was used of the limits, and how many elements are open now.
#[derive(Clone, Copy, Debug, PartialEq, Eq)]
pub struct Meter {
    limits: Limits,
    used: Tally,
    level: u32,
}

impl Model for Meter {
    ghost use Rattle.exi_meter.specs.Metering.{Metering, IsWithin};

    ghost Value = { Metering };

    ghost view = { λ m. record { limits = m.limits; used = m.used; level = m.level } };

    ghost invariant = { λ m. IsWithin (record { limits = m.limits; used = m.used; level = m.level }) };

    ghost inverse = { λ m. record { limits = m.limits; used = m.used; level = m.level } };
}

impl Meter {
    /// A meter with these limits, of which nothing is used; no element is open.
    pub fn new(limits: Limits) -> Meter
        ensures value { result ≡ nothing_used limits }
        ensures within { IsWithin result }
    {
        let used = Tally {
            events: 0,
            text: 0,
            deepest: 0,
        };
        Meter {
            limits,
            used,
            level: 0,
        }
    }

    /// The limits.
    pub fn limits(&self) -> Limits
        ensures value { result ≡ self.now.limits }
        ensures within { IsWithin self.now }
    {
        self.limits
    }

    /// What was used so far.
    pub fn used(&self) -> Tally
        ensures value { result ≡ self.now.used }
        ensures within { IsWithin self.now }
    {
        self.used
    }

    /// How many elements are open.
    pub fn level(&self) -> u32
        ensures value { result ≡ self.now.level }
        ensures within { IsWithin self.now }
    {
        self.level
    }

    /// Counts one event; false, and nothing changed, exactly where that would pass the limit.
    pub fn event(&mut self) -> bool
        ensures fits { result ≡ event_fits self.old }
        ensures counted { OnTrue result (self.new ≡ with_event self.old) }
        ensures same { OnFalse result (self.new ≡ self.old) }
        ensures within { IsWithin self.new }
    {
        let fits = self.used.events < self.limits.events();
        if fits {
            self.used.events += 1;
        }
        fits
    }

    /// Counts `units` of text; false, and nothing changed, exactly where that would pass the limit.
    pub fn text(&mut self, units: u128) -> bool
        ensures fits { result ≡ text_fits self.old units }
        ensures counted { OnTrue result (self.new ≡ with_text self.old units) }
        ensures same { OnFalse result (self.new ≡ self.old) }
        ensures within { IsWithin self.new }
    {
        let left = self.limits.text() - self.used.text;
        let fits = units <= u128::from(left);
        if fits {
            self.used.text += units as u64;
        }
        fits
    }

    /// Enters an element; false, and nothing changed, exactly where that would pass the limit.
    pub fn enter(&mut self) -> bool
        ensures fits { result ≡ level_fits self.old }
        ensures counted { OnTrue result (self.new ≡ with_level self.old) }
        ensures same { OnFalse result (self.new ≡ self.old) }
        ensures within { IsWithin self.new }
    {
        let fits = self.level < self.limits.depth();
        if fits {
            self.level += 1;
            self.used.deepest = self.used.deepest.max(self.level);
        }
        fits
    }

    /// Leaves an element. One must be open.
    pub fn leave(&mut self)
        requires { 0 < self.old.level }
        ensures value { self.new ≡ without_level self.old }
        ensures within { IsWithin self.new }
    {
        self.level -= 1;
    }

    /// Whether `more` can be added: what is used and `more`, and the open elements and the deepest
    /// of `more`, pass no limit.
    pub fn fits(&self, more: &Tally) -> bool
        ensures { result ≡ tally_fits self.now more.now }
    {
        more.events <= self.limits.events() - self.used.events
            && more.text <= self.limits.text() - self.used.text
            && more.deepest <= self.limits.depth() - self.level
    }

    /// Adds what was counted apart, inside the elements that are open. It must fit.
    pub fn add(&mut self, more: &Tally)
        requires { IsTrue (tally_fits self.old more.now) }
        ensures value { self.new ≡ with_tally self.old more.now }
        ensures within { IsWithin self.new }
    {
        self.used.events += more.events;
        self.used.text += more.text;
        self.used.deepest = self.used.deepest.max(self.level + more.deepest);
    }
}

#[cfg(test)]
mod tests {
    use super::*;

    #[test]
    fn counts_and_adds_up_to_the_limits(rt: HostRuntime) {
        let Some(limits) = Limits::new(3, 10, 2) else {
            assert!(rt; false, "these limits are within those of a stream");
            return;
        };
        let mut meter = Meter::new(limits);
        assert!(rt; meter.event() && meter.text(1) && meter.enter());
        let more = Tally {
            events: 2,
            text: 9,
            deepest: 1,
        };
        let fits = meter.fits(&more);
        assert!(rt; fits);
        if fits {
            meter.add(&more);
        }
        assert!(rt; !meter.event() && !meter.text(1));
        let used = Tally {
            events: 3,
            text: 10,
            deepest: 2,
        };
        assert_eq!(rt; meter.used(), used);
        assert_eq!(rt; meter.limits(), limits);
        if meter.level() != 0 {
            meter.leave();
        }
        assert_eq!(rt; meter.level(), 0);
    }
}
