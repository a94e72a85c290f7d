ghost use Rattle.std.specs.Prelude.{◌≡◌, ◌<◌, length};
ghost use Rattle.exi_bits.specs.Bits.{IsAligned};
ghost use Rattle.exi_names.specs.Datatypes.{represented};
ghost use Rattle.exi_names.specs.Seen.{seen, vals};
ghost use Rattle.exi_tables.specs.Partitions.{Partitions};
ghost use Rattle.exi_typed.specs.ReadStates.{GoesOrStops, read_state};
ghost use Rattle.exi_values.specs.Readings.{charged_first, choice_at, enumerated, enumerated_at, measured_at, units_in};
ghost use Rattle.exi_values.specs.Valued.{is_measured};

use crate::charge::charge;
use exi_bits::{Align, BitIn, Kind, Stop};
use exi_meter::Meter;
use exi_names::{Datatype, Val, ValList};
use std::alloc::Global;

/// Whether the values of an enumeration of this datatype are texts or octets, which are charged by their length.
pub fn is_measured(kind: &Datatype) -> bool
    ensures { result ≡ is_measured (represented kind.now) }
{
    match kind {
        Datatype::Binary { .. } | Datatype::Text | Datatype::Chars(_) => true,
        Datatype::Choice { base, .. } => is_measured(base),
        Datatype::Small { .. }
        | Datatype::Unsigned
        | Datatype::Integer
        | Datatype::Boolean { .. }
        | Datatype::Decimal
        | Datatype::Float
        | Datatype::Moment(_)
        | Datatype::List(_)
        | Datatype::Name { .. } => false,
    }
}

/// The value at a place.
fn at_place(values: &ValList, place: u64) -> &Val
    requires within { place < length (vals values.now) }
    ensures { seen result.now ≡ enumerated (vals values.now) place }
{
    &values.as_slice()[place as usize]
}

/// How many values there are.
fn count_of(values: &ValList) -> u64
    ensures { result ≡ length (vals values.now) }
{
    values.as_slice().len() as u64
}

/// How much a text or octets are charged.
fn units_of(value: &Val) -> u128
    ensures { result ≡ units_in (seen value.now) }
{
    match value {
        Val::Text(text) => u128::from(text.count()),
        Val::Bin { hex: _, octets } => octets.as_slice().len() as u128,
        Val::Bool { .. }
        | Val::Int(_)
        | Val::Dec { .. }
        | Val::Flo { .. }
        | Val::Mom(_)
        | Val::Items(_)
        | Val::Name(_) => 1,
    }
}

/// Reads one of these values, which are texts or octets: it is charged by its length behind the place. After an `Err`
/// the place is anything.
#[tactic(auto, unfolding(crate::specs::Readings::measured_at, crate::specs::Readings::enumerated_at))]
fn read_measured(
    alloc: Global,
    input: &mut BitIn<'_>,
    values: &ValList,
    align: Align,
    meter: &mut Meter,
) -> Result<Val, Stop>
    requires aligned { IsAligned align input.old }
    ensures read { (p : Partitions) → GoesOrStops (λ v. (seen v, read_state input.new meter.new p)) meter.new result (measured_at (vals values.now) align (read_state input.old meter.old p)) }
    ensures bytes { input.new.bytes ≡ input.old.bytes }
    ensures aligned { IsAligned align input.new }
{
    let place = input.below(count_of(values), align, Kind::BadPlace)?;
    let value = at_place(values, place);
    charge(meter, units_of(value), input.at())?;
    Ok(value.copy(alloc)?)
}

/// Reads one of these values, with one unit charged before its place. After an `Err` the place is anything.
#[tactic(auto, unfolding(crate::specs::Readings::charged_first, crate::specs::Readings::enumerated_at))]
fn read_enumerated(
    alloc: Global,
    input: &mut BitIn<'_>,
    values: &ValList,
    align: Align,
    meter: &mut Meter,
) -> Result<Val, Stop>
    requires aligned { IsAligned align input.old }
    ensures read { (p : Partitions) → GoesOrStops (λ v. (seen v, read_state input.new meter.new p)) meter.new result (charged_first (enumerated_at (vals values.now) align) (read_state input.old meter.old p)) }
    ensures bytes { input.new.bytes ≡ input.old.bytes }
    ensures aligned { IsAligned align input.new }
{
    charge(meter, 1, input.at())?;
    let place = input.below(count_of(values), align, Kind::BadPlace)?;
    Ok(at_place(values, place).copy(alloc)?)
}

/// Reads one of the values of an enumeration, by its place (EXI 1.0, section 7.2). After an `Err` the place is anything.
pub fn read_choice(
    alloc: Global,
    input: &mut BitIn<'_>,
    base: &Datatype,
    values: &ValList,
    align: Align,
    meter: &mut Meter,
) -> Result<Val, Stop>
    requires aligned { IsAligned align input.old }
    ensures read { (p : Partitions) → GoesOrStops (λ v. (seen v, read_state input.new meter.new p)) meter.new result (choice_at (is_measured (represented base.now)) (vals values.now) align (read_state input.old meter.old p)) }
    ensures bytes { input.new.bytes ≡ input.old.bytes }
    ensures aligned { IsAligned align input.new }
{
    if is_measured(base) {
        read_measured(alloc, input, values, align, meter)
    } else {
        read_enumerated(alloc, input, values, align, meter)
    }
}
