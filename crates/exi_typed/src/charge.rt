ghost use Rattle.std.specs.Prelude.{◌≡◌, ◌<◌, Ok, Err, None, Some, IfNone, IfSome, IsErr, length, MatchResult};
ghost use Rattle.std.specs.Option.{option_copied};
ghost use Rattle.exi_bits.specs.Bits.{IsAligned};
ghost use Rattle.exi_bits.specs.Unsigned.{below_at};
ghost use Rattle.exi_bits.specs.declared.fault.Kind.TheVariants as kind;
ghost use Rattle.exi_items.specs.Charges.{text_charge};

use exi_bits::{Align, BitIn, Fault, Kind, bits_for};
use exi_meter::Meter;
use exi_names::Txt;

/// The text that a place tells, or `BadPlace` at the place's first bit.
#[inline(always)]
pub fn told(text: Option<&Txt>, bit: u64) -> Result<&Txt, Fault>
    ensures { MatchResult result (λ t. option_copied text.entry ≡ Some t.now) (λ f. (option_copied text.entry ≡ None) × (f ≡ record { kind = kind.BadPlace; bit = bit })) }
{
    match text {
        Some(text) => Ok(text),
        None => Err(Fault {
            kind: Kind::BadPlace,
            bit,
        }),
    }
}

/// Takes the place of one of `count` texts. `None`, and nothing is taken, where there is a fault.
#[inline(always)]
#[tactic(auto, unfolding(exi_bits::specs::Unsigned::below_at))]
pub fn place_below(input: &mut BitIn<'_>, count: u64, align: Align) -> Option<u64>
    requires aligned { IsAligned align input.old }
    ensures read { IfSome result (λ place. below_at count align kind.BadPlace input.old ≡ Ok (place, input.new)) }
    ensures below { IfSome result (λ place. place < count) }
    ensures none { IfNone result (IsErr (below_at count align kind.BadPlace input.old)) }
    ensures place { IfNone result (input.new ≡ input.old) }
    ensures bytes { input.new.bytes ≡ input.old.bytes }
    ensures aligned { IsAligned align input.new }
{
    let bit = input.at();
    let Ok(place) = input.number(bits_for(count), align) else {
        return None;
    };
    if place < count {
        return Some(place);
    }
    input.go_to_bit(bit);
    None
}

/// Charges so many units of text, or answers `TextLimit` at this bit.
#[tactic(auto, unfolding(exi_items::specs::Charges::text_charge))]
#[inline(always)]
pub fn charge(meter: &mut Meter, units: u128, bit: u64) -> Result<(), Fault>
    ensures { MatchResult result (λ _. text_charge units bit meter.old ≡ Ok meter.new) (λ f. (text_charge units bit meter.old ≡ Err f) × (meter.new ≡ meter.old)) }
{
    if meter.text(units) {
        return Ok(());
    }
    Err(Fault {
        kind: Kind::TextLimit,
        bit,
    })
}

/// Charges the characters of a text that stands in the tables, or answers `TextLimit` at this bit.
#[inline(always)]
pub fn charge_text(meter: &mut Meter, text: &Txt, bit: u64) -> Result<(), Fault>
    ensures { MatchResult result (λ _. text_charge (length text.now) bit meter.old ≡ Ok meter.new) (λ f. (text_charge (length text.now) bit meter.old ≡ Err f) × (meter.new ≡ meter.old)) }
{
    charge(meter, u128::from(text.count()), bit)
}
