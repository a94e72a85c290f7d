ghost use Rattle.std.specs.Prelude.{◌≡◌, pos, None, Ok, MatchOption};
ghost use Rattle.exi_bits.specs.Bits.{IsAligned};
ghost use Rattle.exi_bits.specs.Unsigned.{Reads, ReadsSome};
ghost use Rattle.exi_names.specs.Moments.{fields, has_month_day};
ghost use Rattle.exi_moment.specs.Reading.{where_it_counts, year_at, month_day_at, time_at, fraction_at, offset_at, zone_at, moment_at};

use crate::fields::{counts_month_day, counts_time, counts_year};
use crate::numbers::{month_day, time, year, zone};
use crate::short::short_date_time;
use exi_bits::{Align, BitIn, Fault, Kind};
use exi_names::{Moment, MomentKind};

/// A field out of its range in the item at this bit.
fn bad_moment(bit: u64) -> Fault
    ensures { result ≡ record { kind = Kind.BadMoment; bit = bit } }
{
    Fault {
        kind: Kind::BadMoment,
        bit,
    }
}

#[tactic(auto, unfolding(crate::specs::Reading::year_at))]
fn read_year(input: &mut BitIn<'_>, align: Align) -> Result<i64, Fault>
    requires aligned { IsAligned align input.old }
    ensures read { ReadsSome (λ x. x) result input.new (year_at align input.old) }
    ensures bytes { input.new.bytes ≡ input.old.bytes }
    ensures aligned { IsAligned align input.new }
{
    let minus = input.below(2, align, Kind::BadPlace)? == 1;
    let bit = input.at();
    let size = input.unsigned()?;
    if size >= 1 << 127 {
        return Err(Fault {
            kind: Kind::TooWide,
            bit,
        });
    }
    year(minus, size).ok_or(bad_moment(bit))
}

#[tactic(auto, unfolding(crate::specs::Reading::month_day_at))]
fn read_month_day(input: &mut BitIn<'_>, kind: MomentKind, align: Align) -> Result<(u8, u8), Fault>
    requires aligned { IsAligned align input.old }
    ensures read { ReadsSome (λ x. x) result input.new (month_day_at kind align input.old) }
    ensures bytes { input.new.bytes ≡ input.old.bytes }
    ensures aligned { IsAligned align input.new }
{
    let bit = input.at();
    let number = input.number(9, align)?;
    month_day(kind, number).ok_or(bad_moment(bit))
}

#[tactic(auto, unfolding(crate::specs::Reading::time_at))]
fn read_time(input: &mut BitIn<'_>, align: Align) -> Result<(u8, u8, u8), Fault>
    requires aligned { IsAligned align input.old }
    ensures read { ReadsSome (λ x. x) result input.new (time_at align input.old) }
    ensures bytes { input.new.bytes ≡ input.old.bytes }
    ensures aligned { IsAligned align input.new }
{
    let bit = input.at();
    let number = input.number(17, align)?;
    time(number).ok_or(bad_moment(bit))
}

#[tactic(auto, unfolding(crate::specs::Reading::fraction_at))]
fn read_fraction(input: &mut BitIn<'_>, align: Align) -> Result<Option<u128>, Fault>
    requires aligned { IsAligned align input.old }
    ensures read { ReadsSome (λ x. x) result input.new (fraction_at align input.old) }
    ensures bytes { input.new.bytes ≡ input.old.bytes }
    ensures aligned { IsAligned align input.new }
{
    if input.below(2, align, Kind::BadPlace)? == 0 {
        return Ok(None);
    }
    let digits = input.unsigned()?;
    Ok(Some(digits))
}

#[tactic(auto, unfolding(crate::specs::Reading::offset_at))]
fn read_offset(input: &mut BitIn<'_>, align: Align) -> Result<i16, Fault>
    requires aligned { IsAligned align input.old }
    ensures read { ReadsSome (λ x. x) result input.new (offset_at align input.old) }
    ensures bytes { input.new.bytes ≡ input.old.bytes }
    ensures aligned { IsAligned align input.new }
{
    let bit = input.at();
    let number = input.number(11, align)?;
    zone(number).ok_or(bad_moment(bit))
}

#[tactic(auto, unfolding(crate::specs::Reading::zone_at))]
fn read_zone(input: &mut BitIn<'_>, align: Align) -> Result<Option<i16>, Fault>
    requires aligned { IsAligned align input.old }
    ensures read { ReadsSome (λ x. x) result input.new (zone_at align input.old) }
    ensures bytes { input.new.bytes ≡ input.old.bytes }
    ensures aligned { IsAligned align input.new }
{
    if input.below(2, align, Kind::BadPlace)? == 0 {
        return Ok(None);
    }
    let zone = read_offset(input, align)?;
    Ok(Some(zone))
}

/// The year where it counts, else 0.
fn year_part(input: &mut BitIn<'_>, kind: MomentKind, align: Align) -> Result<i64, Fault>
    requires aligned { IsAligned align input.old }
    ensures read { ReadsSome (λ x. x) result input.new (where_it_counts (fields kind).year (pos 0) (year_at align) input.old) }
    ensures bytes { input.new.bytes ≡ input.old.bytes }
    ensures aligned { IsAligned align input.new }
{
    if counts_year(kind) {
        read_year(input, align)
    } else {
        Ok(0)
    }
}

/// Month and day where one of them counts, else 0.
fn month_day_part(input: &mut BitIn<'_>, kind: MomentKind, align: Align) -> Result<(u8, u8), Fault>
    requires aligned { IsAligned align input.old }
    ensures read { ReadsSome (λ x. x) result input.new (where_it_counts (has_month_day kind) (0, 0) (month_day_at kind align) input.old) }
    ensures bytes { input.new.bytes ≡ input.old.bytes }
    ensures aligned { IsAligned align input.new }
{
    if counts_month_day(kind) {
        read_month_day(input, kind, align)
    } else {
        Ok((0, 0))
    }
}

/// Hour, minute and second where they count, else 0.
fn time_part(input: &mut BitIn<'_>, kind: MomentKind, align: Align) -> Result<(u8, u8, u8), Fault>
    requires aligned { IsAligned align input.old }
    ensures read { ReadsSome (λ x. x) result input.new (where_it_counts (fields kind).time (0, 0, 0) (time_at align) input.old) }
    ensures bytes { input.new.bytes ≡ input.old.bytes }
    ensures aligned { IsAligned align input.new }
{
    if counts_time(kind) {
        read_time(input, align)
    } else {
        Ok((0, 0, 0))
    }
}

/// The fraction of a second where there is a time.
fn fraction_part(
    input: &mut BitIn<'_>,
    kind: MomentKind,
    align: Align,
) -> Result<Option<u128>, Fault>
    requires aligned { IsAligned align input.old }
    ensures read { ReadsSome (λ x. x) result input.new (where_it_counts (fields kind).time None (fraction_at align) input.old) }
    ensures bytes { input.new.bytes ≡ input.old.bytes }
    ensures aligned { IsAligned align input.new }
{
    if counts_time(kind) {
        read_fraction(input, align)
    } else {
        Ok(None)
    }
}

/// The parts of the kind, in order. The place is anything after an `Err`.
#[tactic(auto, unfolding(crate::specs::Reading::moment_at))]
fn moment_parts(input: &mut BitIn<'_>, kind: MomentKind, align: Align) -> Result<Moment, Fault>
    requires aligned { IsAligned align input.old }
    ensures read { ReadsSome (λ x. x) result input.new (moment_at kind align input.old) }
    ensures bytes { input.new.bytes ≡ input.old.bytes }
    ensures aligned { IsAligned align input.new }
{
    let year = year_part(input, kind, align)?;
    let (month, day) = month_day_part(input, kind, align)?;
    let (hour, minute, second) = time_part(input, kind, align)?;
    let fraction = fraction_part(input, kind, align)?;
    let zone = read_zone(input, align)?;
    Ok(Moment {
        kind,
        year,
        month,
        day,
        hour,
        minute,
        second,
        fraction,
        zone,
    })
}

/// Reads a date or a time of a kind part by part. The place is as before after an `Err`.
#[inline(never)]
fn read_in_parts(input: &mut BitIn<'_>, kind: MomentKind, align: Align) -> Result<Moment, Fault>
    requires aligned { IsAligned align input.old }
    ensures read { Reads (λ x. x) result input.old input.new (moment_at kind align input.old) }
    ensures bytes { input.new.bytes ≡ input.old.bytes }
    ensures aligned { IsAligned align input.new }
{
    let start = input.at();
    match moment_parts(input, kind, align) {
        Ok(moment) => Ok(moment),
        Err(fault) => {
            input.go_to_bit(start);
            Err(fault)
        }
    }
}

/// The same, with its answer in a room that is made on this way alone.
#[inline(always)]
fn read_apart(input: &mut BitIn<'_>, kind: MomentKind, align: Align) -> Result<Moment, Fault>
    requires aligned { IsAligned align input.old }
    ensures read { Reads (λ x. x) result input.old input.new (moment_at kind align input.old) }
    ensures bytes { input.new.bytes ≡ input.old.bytes }
    ensures aligned { IsAligned align input.new }
{
    match read_in_parts(input, kind, align) {
        Ok(moment) => Ok(moment),
        Err(fault) => Err(fault),
    }
}

/// Reads the most frequent date and time alone, as [`read_moment`] does: in a bit-packed stream, one of 48 bits, with a
/// zone and without a fraction. Takes no memory.
///
/// `None` is no promise but that the place is as before: [`read_moment`] then tells what there is (EXI 1.0, section 7.1.8).
#[inline(always)]
pub fn short_moment(input: &mut BitIn<'_>, kind: MomentKind, align: Align) -> Option<Moment>
    requires aligned { IsAligned align input.old }
    ensures read { MatchOption result (input.new ≡ input.old) (λ m. moment_at kind align input.old ≡ Ok (m, input.new)) }
    ensures bytes { input.new.bytes ≡ input.old.bytes }
    ensures aligned { IsAligned align input.new }
{
    if let (MomentKind::DateTime, Align::Bits) = (kind, align) {
        if let Some(fields) = short_date_time(input) {
            return Some(Moment {
                kind,
                year: fields.year,
                month: fields.month,
                day: fields.day,
                hour: fields.hour,
                minute: fields.minute,
                second: fields.second,
                fraction: None,
                zone: Some(fields.zone),
            });
        }
    }
    None
}

/// Reads a date or a time of a kind (EXI 1.0, section 7.1.8). Takes no memory.
///
/// Day 31 is taken in any month, any minute in hour 24, and second 60; the zone is at most 14 hours
/// either way. A field that the kind does not have is 0.
///
/// # Errors
///
/// The place is then as before. The bit of the fault is the first of the item that shows it:
///
/// - `Short` where the bits end before an item does;
/// - `TooWide` at an Unsigned Integer of more than 19 octets or of 2^128 or more, and at the year's
///   from 2^127 on;
/// - `BadPlace` at a number of one bit that is not 0 or 1 in a byte-aligned stream;
/// - `BadMoment` at an item with a field out of its range, also one that the kind does not have and
///   that is not 0. For the year, which has to fit 64 bits, the item is its Unsigned Integer.
#[inline(always)]
pub fn read_moment(input: &mut BitIn<'_>, kind: MomentKind, align: Align) -> Result<Moment, Fault>
    requires aligned { IsAligned align input.old }
    ensures read { Reads (λ x. x) result input.old input.new (moment_at kind align input.old) }
    ensures bytes { input.new.bytes ≡ input.old.bytes }
    ensures aligned { IsAligned align input.new }
{
    match short_moment(input, kind, align) {
        Some(moment) => Ok(moment),
        None => read_apart(input, kind, align),
    }
}
