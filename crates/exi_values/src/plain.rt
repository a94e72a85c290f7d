ghost use Rattle.std.specs.Prelude.{◌≡◌, pos, ◌+ℤ◌};
ghost use Rattle.exi_bits.specs.Bits.{IsAligned};
ghost use Rattle.exi_names.specs.Seen.{seen};
ghost use Rattle.exi_scalar.specs.Scalars.{boolean_at, decimal_at, float_at};
ghost use Rattle.exi_tables.specs.Partitions.{Partitions};
ghost use Rattle.exi_typed.specs.ReadStates.{GoesOrStops, read_state};
ghost use Rattle.exi_values.specs.Readings.{charged_first, dated_at, natural_at, number_of, octets_value_at, small_at, whole_at};

use crate::charge::charge;
use exi_bits::{Align, BitIn, Kind, Stop};
use exi_meter::Meter;
use exi_moment::read_moment;
use exi_names::{MomentKind, Val, Whole};
use exi_scalar::{
    read_binary, read_boolean, read_decimal, read_float, read_integer, read_unsigned,
};
use std::alloc::Global;

/// The number at a place, from the least one on.
#[inline(always)]
pub fn from_least(least: i128, place: u64) -> Whole
    ensures { result ≡ number_of (least +ℤ pos place) }
{
    let far = least.unsigned_abs();
    let place = u128::from(place);
    if least >= 0 {
        return Whole {
            minus: false,
            size: far + place,
        };
    }
    if place < far {
        return Whole {
            minus: true,
            size: far - place,
        };
    }
    Whole {
        minus: false,
        size: place - far,
    }
}

/// Reads an integer of a bounded range, by its place in it. After an `Err` the place is anything.
#[tactic(auto, unfolding(crate::specs::Readings::charged_first, crate::specs::Readings::small_at))]
#[inline(always)]
pub fn read_small(
    input: &mut BitIn<'_>,
    least: &i128,
    count: u16,
    align: Align,
    meter: &mut Meter,
) -> Result<Val, Stop>
    requires aligned { IsAligned align input.old }
    ensures read { (p : Partitions) → GoesOrStops (λ v. (seen v, read_state input.new meter.new p)) meter.new result (charged_first (small_at least.now count align) (read_state input.old meter.old p)) }
    ensures bytes { input.new.bytes ≡ input.old.bytes }
    ensures aligned { IsAligned align input.new }
{
    charge(meter, 1, input.at())?;
    let place = input.below(u64::from(count), align, Kind::BadPlace)?;
    Ok(Val::Int(from_least(*least, place)))
}

/// Reads an integer that is not negative. After an `Err` the place is anything.
#[tactic(auto, unfolding(crate::specs::Readings::charged_first, crate::specs::Readings::natural_at))]
#[inline(always)]
pub fn read_natural(input: &mut BitIn<'_>, align: Align, meter: &mut Meter) -> Result<Val, Stop>
    requires aligned { IsAligned align input.old }
    ensures read { (p : Partitions) → GoesOrStops (λ v. (seen v, read_state input.new meter.new p)) meter.new result (charged_first natural_at (read_state input.old meter.old p)) }
    ensures bytes { input.new.bytes ≡ input.old.bytes }
    ensures aligned { IsAligned align input.new }
{
    charge(meter, 1, input.at())?;
    let size = read_unsigned(input)?;
    Ok(Val::Int(Whole { minus: false, size }))
}

/// Reads an integer. After an `Err` the place is anything.
#[tactic(auto, unfolding(crate::specs::Readings::charged_first, crate::specs::Readings::whole_at))]
#[inline(always)]
pub fn read_whole(input: &mut BitIn<'_>, align: Align, meter: &mut Meter) -> Result<Val, Stop>
    requires aligned { IsAligned align input.old }
    ensures read { (p : Partitions) → GoesOrStops (λ v. (seen v, read_state input.new meter.new p)) meter.new result (charged_first (whole_at align) (read_state input.old meter.old p)) }
    ensures bytes { input.new.bytes ≡ input.old.bytes }
    ensures aligned { IsAligned align input.new }
{
    charge(meter, 1, input.at())?;
    let number = read_integer(input, align)?;
    Ok(Val::Int(number))
}

/// Reads a boolean, with a pattern or without. After an `Err` the place is anything.
#[tactic(auto, unfolding(crate::specs::Readings::charged_first))]
#[inline(always)]
pub fn read_truth(
    input: &mut BitIn<'_>,
    pattern: bool,
    align: Align,
    meter: &mut Meter,
) -> Result<Val, Stop>
    requires aligned { IsAligned align input.old }
    ensures read { (p : Partitions) → GoesOrStops (λ v. (seen v, read_state input.new meter.new p)) meter.new result (charged_first (boolean_at pattern align) (read_state input.old meter.old p)) }
    ensures bytes { input.new.bytes ≡ input.old.bytes }
    ensures aligned { IsAligned align input.new }
{
    charge(meter, 1, input.at())?;
    Ok(read_boolean(input, pattern, align)?)
}

/// Reads a decimal. After an `Err` the place is anything.
#[tactic(auto, unfolding(crate::specs::Readings::charged_first))]
pub fn read_fixed(input: &mut BitIn<'_>, align: Align, meter: &mut Meter) -> Result<Val, Stop>
    requires aligned { IsAligned align input.old }
    ensures read { (p : Partitions) → GoesOrStops (λ v. (seen v, read_state input.new meter.new p)) meter.new result (charged_first (decimal_at align) (read_state input.old meter.old p)) }
    ensures bytes { input.new.bytes ≡ input.old.bytes }
    ensures aligned { IsAligned align input.new }
{
    charge(meter, 1, input.at())?;
    Ok(read_decimal(input, align)?)
}

/// Reads a float. After an `Err` the place is anything.
#[tactic(auto, unfolding(crate::specs::Readings::charged_first))]
pub fn read_floating(input: &mut BitIn<'_>, align: Align, meter: &mut Meter) -> Result<Val, Stop>
    requires aligned { IsAligned align input.old }
    ensures read { (p : Partitions) → GoesOrStops (λ v. (seen v, read_state input.new meter.new p)) meter.new result (charged_first (float_at align) (read_state input.old meter.old p)) }
    ensures bytes { input.new.bytes ≡ input.old.bytes }
    ensures aligned { IsAligned align input.new }
{
    charge(meter, 1, input.at())?;
    Ok(read_float(input, align)?)
}

/// Reads a date or a time. After an `Err` the place is anything.
#[tactic(auto, unfolding(crate::specs::Readings::charged_first, crate::specs::Readings::dated_at))]
#[inline(always)]
pub fn read_date(
    input: &mut BitIn<'_>,
    kind: MomentKind,
    align: Align,
    meter: &mut Meter,
) -> Result<Val, Stop>
    requires aligned { IsAligned align input.old }
    ensures read { (p : Partitions) → GoesOrStops (λ v. (seen v, read_state input.new meter.new p)) meter.new result (charged_first (dated_at kind align) (read_state input.old meter.old p)) }
    ensures bytes { input.new.bytes ≡ input.old.bytes }
    ensures aligned { IsAligned align input.new }
{
    charge(meter, 1, input.at())?;
    let moment = read_moment(input, kind, align)?;
    Ok(Val::Mom(moment))
}

/// Reads octets behind their number, which is charged. After an `Err` the place is anything.
#[tactic(auto, unfolding(crate::specs::Readings::octets_value_at))]
#[inline(always)]
pub fn read_octets(
    alloc: Global,
    input: &mut BitIn<'_>,
    hex: bool,
    align: Align,
    meter: &mut Meter,
) -> Result<Val, Stop>
    requires aligned { IsAligned align input.old }
    ensures read { (p : Partitions) → GoesOrStops (λ v. (seen v, read_state input.new meter.new p)) meter.new result (octets_value_at hex (read_state input.old meter.old p)) }
    ensures bytes { input.new.bytes ≡ input.old.bytes }
    ensures aligned { IsAligned align input.new }
{
    read_binary(alloc, input, hex, align, meter)
}
