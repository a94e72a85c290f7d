//! Values that are frequent and small, each read straight and answered without a room for any value. What is seldom, or
//! wrong, is left to [`read_value`](crate::read_value).

ghost use Rattle.std.specs.Prelude.{◌≡◌, ◌%◌, Bool};
ghost use Rattle.exi_bits.specs.Bits.{IsAligned};
ghost use Rattle.exi_bits.specs.declared.align.Align.{Align};
ghost use Rattle.exi_names.specs.Datatypes as datatype;
ghost use Rattle.exi_names.specs.Datatypes.{represented};
ghost use Rattle.exi_names.specs.Seen as value;
ghost use Rattle.exi_names.specs.declared.names.NameId.{NameId};
ghost use Rattle.exi_tables.specs.Partitions.{Partitions};
ghost use Rattle.exi_values.specs.Readings.{charged_first, natural_at, small_at, whole_at};
ghost use Rattle.exi_values.specs.Shorts.{GoesOrStays};
ghost use Rattle.exi_values.specs.Valued.{valued_at};

use crate::charge::charge;
use crate::plain::from_least;
use exi_bits::{Align, BitIn, Kind};
use exi_meter::Meter;
use exi_moment::short_moment as short_date;
use exi_names::{Datatype, Moment, MomentKind, Octets, Whole};
use exi_scalar::{read_integer, read_unsigned};
use std::alloc::Global;

/// An integer of a bounded range.
#[tactic(auto, unfolding(crate::specs::Readings::charged_first, crate::specs::Readings::small_at))]
#[inline(always)]
fn short_small(
    input: &mut BitIn<'_>,
    least: &i128,
    count: u16,
    align: Align,
    meter: &mut Meter,
) -> Option<Whole>
    requires aligned { IsAligned align input.old }
    ensures read { (p : Partitions) → GoesOrStays value.integer result input.old meter.old input.new meter.new p (charged_first (small_at least.now count align)) }
    ensures bytes { input.new.bytes ≡ input.old.bytes }
    ensures aligned { IsAligned align input.new }
{
    let start = input.at();
    let Ok(place) = input.below(u64::from(count), align, Kind::BadPlace) else {
        return None;
    };
    match charge(meter, 1, start) {
        Ok(()) => Some(from_least(*least, place)),
        Err(_) => {
            input.go_to_bit(start);
            None
        }
    }
}

/// An integer that is not negative.
#[tactic(auto, unfolding(crate::specs::Readings::charged_first, crate::specs::Readings::natural_at))]
#[inline(always)]
fn short_natural(input: &mut BitIn<'_>, align: Align, meter: &mut Meter) -> Option<Whole>
    requires aligned { IsAligned align input.old }
    ensures read { (p : Partitions) → GoesOrStays value.integer result input.old meter.old input.new meter.new p (charged_first natural_at) }
    ensures bytes { input.new.bytes ≡ input.old.bytes }
    ensures aligned { IsAligned align input.new }
{
    let start = input.at();
    let Ok(size) = read_unsigned(input) else {
        return None;
    };
    match charge(meter, 1, start) {
        Ok(()) => Some(Whole { minus: false, size }),
        Err(_) => {
            input.go_to_bit(start);
            None
        }
    }
}

/// An integer with a sign.
#[tactic(auto, unfolding(crate::specs::Readings::charged_first, crate::specs::Readings::whole_at))]
#[inline(always)]
fn short_whole(input: &mut BitIn<'_>, align: Align, meter: &mut Meter) -> Option<Whole>
    requires aligned { IsAligned align input.old }
    ensures read { (p : Partitions) → GoesOrStays value.integer result input.old meter.old input.new meter.new p (charged_first (whole_at align)) }
    ensures bytes { input.new.bytes ≡ input.old.bytes }
    ensures aligned { IsAligned align input.new }
{
    let start = input.at();
    let Ok(number) = read_integer(input, align) else {
        return None;
    };
    match charge(meter, 1, start) {
        Ok(()) => Some(number),
        Err(_) => {
            input.go_to_bit(start);
            None
        }
    }
}

/// Reads an integer, where the datatype is one of integers (EXI 1.0, sections 7.1.5, 7.1.6 and 7.1.9). Takes no memory.
///
/// `None`, as where it is another datatype or where there is a fault, is no promise but that nothing is changed:
/// [`read_value`](crate::read_value) then tells what there is.
#[tactic(auto, unfolding(crate::specs::Valued::valued_at))]
#[inline(always)]
pub fn short_integer(
    input: &mut BitIn<'_>,
    kind: &Datatype,
    align: Align,
    meter: &mut Meter,
) -> Option<Whole>
    requires aligned { IsAligned align input.old }
    ensures read { (name : NameId) (p : Partitions) → GoesOrStays value.integer result input.old meter.old input.new meter.new p (valued_at (represented kind.now) align name) }
    ensures bytes { input.new.bytes ≡ input.old.bytes }
    ensures aligned { IsAligned align input.new }
{
    match kind {
        Datatype::Small { least, count } => short_small(input, least, *count, align, meter),
        Datatype::Unsigned => short_natural(input, align, meter),
        Datatype::Integer => short_whole(input, align, meter),
        Datatype::Boolean { .. }
        | Datatype::Binary { .. }
        | Datatype::Decimal
        | Datatype::Float
        | Datatype::Moment(_)
        | Datatype::List(_)
        | Datatype::Choice { .. }
        | Datatype::Text
        | Datatype::Chars(_)
        | Datatype::Name { .. } => None,
    }
}

/// Reads a date and time of 48 bits in a bit-packed stream (EXI 1.0, section 7.1.8). Takes no memory.
///
/// `None`, as where there is none so or where it would pass the limit of text, is no promise but that nothing is changed:
/// [`read_value`](crate::read_value) then tells what there is.
#[tactic(auto, unfolding(crate::specs::Valued::valued_at, crate::specs::Readings::charged_first, crate::specs::Readings::dated_at))]
#[inline(always)]
pub fn short_moment(
    input: &mut BitIn<'_>,
    kind: MomentKind,
    align: Align,
    meter: &mut Meter,
) -> Option<Moment>
    requires aligned { IsAligned align input.old }
    ensures read { (name : NameId) (p : Partitions) → GoesOrStays value.moment result input.old meter.old input.new meter.new p (valued_at (datatype.moment kind) align name) }
    ensures bytes { input.new.bytes ≡ input.old.bytes }
    ensures aligned { IsAligned align input.new }
{
    let start = input.at();
    let Some(moment) = short_date(input, kind, align) else {
        return None;
    };
    match charge(meter, 1, start) {
        Ok(()) => Some(moment),
        Err(_) => {
            input.go_to_bit(start);
            None
        }
    }
}

/// Reads octets whose number takes one octet itself (EXI 1.0, section 7.1.1), so at most 127. They take memory before they
/// are charged.
///
/// `None`, as where there are none so, where they would pass the limit of text or where memory is refused, is no promise
/// but that nothing is changed: [`read_value`](crate::read_value) then tells what there is.
#[tactic(auto, unfolding(crate::specs::Valued::valued_at, crate::specs::Readings::octets_value_at, exi_scalar::specs::Scalars::binary_at))]
#[inline(always)]
pub fn short_octets(alloc: Global, input: &mut BitIn<'_>, meter: &mut Meter) -> Option<Octets>
    ensures read { (hex : Bool) (align : Align) (name : NameId) (p : Partitions) → GoesOrStays (value.binary hex) result input.old meter.old input.new meter.new p (valued_at (datatype.binary hex) align name) }
    ensures bytes { input.new.bytes ≡ input.old.bytes }
    ensures phase { input.new.place % 8 ≡ input.old.place % 8 }
{
    let start = input.at();
    let Some(count) = input.one_octet() else {
        return None;
    };
    let Ok(octets) = input.octets(alloc, u128::from(count)) else {
        input.go_to_bit(start);
        return None;
    };
    match charge(meter, u128::from(count), start) {
        Ok(()) => Some(Octets::from_vec(octets)),
        Err(_) => {
            input.go_to_bit(start);
            None
        }
    }
}
