ghost use Rattle.std.specs.Prelude.{◌≡◌, Ok, Err, MatchResult};
ghost use Rattle.exi_items.specs.Charges.{text_charge};
ghost use Rattle.exi_meter.specs.Metering.{IsWithin};

use exi_bits::{Fault, Kind};
use exi_meter::Meter;

/// Charges so many units of text, or answers `TextLimit` at this bit.
#[tactic(auto, unfolding(exi_items::specs::Charges::text_charge))]
#[inline(always)]
pub fn charge(meter: &mut Meter, units: u128, bit: u64) -> Result<(), Fault>
    ensures charge { MatchResult result (λ _. text_charge units bit meter.old ≡ Ok meter.new) (λ f. (text_charge units bit meter.old ≡ Err f) × (meter.new ≡ meter.old)) }
    ensures within { IsWithin meter.new }
{
    if meter.text(units) {
        return Ok(());
    }
    Err(Fault {
        kind: Kind::TextLimit,
        bit,
    })
}
