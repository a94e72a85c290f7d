ghost use Rattle.std.specs.Prelude.{◌≡◌, Ok, Err, MatchResult};
ghost use Rattle.exi_items.specs.Charges.{text_charge, after_text};

use exi_bits::{Fault, Kind};
use exi_meter::Meter;

/// Charges `units` of text to the meter.
///
/// # Errors
///
/// `TextLimit` at this bit where the text would pass its limit; the meter is then unchanged.
#[tactic(auto, unfolding(crate::specs::Charges::text_charge))]
pub fn charge_text(meter: &mut Meter, units: u128, bit: u64) -> Result<(), Fault>
    ensures charge { MatchResult result (λ _. text_charge units bit meter.old ≡ Ok meter.new) (λ f. text_charge units bit meter.old ≡ Err f) }
    ensures meter { meter.new ≡ after_text meter.old units }
{
    if meter.text(units) {
        return Ok(());
    }
    Err(Fault {
        kind: Kind::TextLimit,
        bit,
    })
}
