ghost use Rattle.std.specs.Prelude.{◌≡◌, [], ◌∷◌, Ok, true};
ghost use Rattle.exi_toll.specs.Charges.{AreKept, Settles, charge, charge_event, charge_level, is_within};

use crate::stop::PutStop;
use exi_bits::Kind;
use exi_meter::Meter;
use std::marker::Model;

/// What an event charges, one charge after another. Behind one that passes its limit none is made.
#[derive(Debug, Drop)]
pub struct Toll {
    meter: Meter,
    refused: Option<Kind>,
}

impl Model for Toll {
    ghost use Rattle.exi_toll.specs.Charges.{Charged, charged_of};

    ghost Value = { Charged };

    ghost view = { λ t. charged_of t.meter t.refused };
}

impl Toll {
    /// Nothing is charged yet.
    pub fn of(meter: Meter) -> Toll
        ensures { result ≡ Ok meter }
    {
        Toll {
            meter,
            refused: None,
        }
    }

    /// One more event.
    pub fn event(&mut self)
        ensures { self.new ≡ charge_event true self.old }
    {
        if self.refused.is_none() && !self.meter.event() {
            self.refused = Some(Kind::EventLimit);
        }
    }

    /// One more open element.
    pub fn enter(&mut self)
        ensures { self.new ≡ charge_level true self.old }
    {
        if self.refused.is_none() && !self.meter.enter() {
            self.refused = Some(Kind::DepthLimit);
        }
    }

    /// A text of so many characters.
    pub fn text(&mut self, units: u64)
        ensures { self.new ≡ charge (units ∷ []) self.old }
    {
        if self.refused.is_none() && !self.meter.text(u128::from(units)) {
            self.refused = Some(Kind::TextLimit);
        }
    }

    /// Whether each charge so far is within its limit.
    pub fn is_within(&self) -> bool
        ensures value { result ≡ is_within self.now }
        ensures kept { AreKept self.now }
    {
        // what a meter took is within its limits
        let _ = self.meter.used();
        match self.refused {
            None => true,
            Some(_) => false,
        }
    }

    /// Makes the charges. Where one passes its limit, those before it stand.
    pub fn settle(self, meter: &mut Meter) -> Result<(), PutStop>
        ensures { Settles result meter.new self }
    {
        *meter = self.meter;
        match self.refused {
            None => Ok(()),
            Some(kind) => Err(PutStop::Limit(kind)),
        }
    }
}
