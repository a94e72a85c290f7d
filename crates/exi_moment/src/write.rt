ghost use Rattle.std.specs.Prelude.{◌≡◌, ◌++◌, ◌≤◌, IfSome, IsTrue, OnOk, OnErr, false, unsigned_abs, pos, None};
ghost use Rattle.exi_bits.specs.Written.{IsWholeBytes};
ghost use Rattle.exi_names.specs.Moments.{IsMoment};
ghost use Rattle.exi_items.specs.Fronts.{HoldsFront};
ghost use Rattle.exi_moment.specs.Spelling.{fraction_text, month_day_text, spelling, time_text, year_text, zone_text};

use crate::fields::{counts_month_day, counts_time, counts_year};
use crate::numbers::{year_parts, zone_to_number};
use exi_bits::{Align, BitOut};
use exi_names::Moment;
use std::alloc::AllocError;

/// The year where it counts.
fn write_year(out: &mut BitOut, value: &Moment, align: Align) -> Result<(), AllocError>
    requires aligned { IsWholeBytes align out.old }
    ensures ok { OnOk result (out.new ≡ out.old ++ year_text align value.now) }
    ensures err { OnErr result (HoldsFront out.old (year_text align value.now) out.new) }
    ensures aligned { IsWholeBytes align out.new }
{
    if !counts_year(value.kind) {
        return Ok(());
    }
    let (minus, size) = year_parts(value.year);
    out.put(u64::from(minus), 1, align)?;
    out.unsigned(size)
}

/// Month and day where one of them counts.
fn write_month_day(out: &mut BitOut, value: &Moment, align: Align) -> Result<(), AllocError>
    requires ranges { IsMoment value.now }
    requires aligned { IsWholeBytes align out.old }
    ensures ok { OnOk result (out.new ≡ out.old ++ month_day_text align value.now) }
    ensures err { OnErr result (HoldsFront out.old (month_day_text align value.now) out.new) }
    ensures aligned { IsWholeBytes align out.new }
{
    if !counts_month_day(value.kind) {
        return Ok(());
    }
    out.put(u64::from(value.month) * 32 + u64::from(value.day), 9, align)
}

/// Whether there is a fraction, and its digits.
fn write_fraction(out: &mut BitOut, fraction: Option<u128>, align: Align) -> Result<(), AllocError>
    requires aligned { IsWholeBytes align out.old }
    ensures ok { OnOk result (out.new ≡ out.old ++ fraction_text align fraction) }
    ensures err { OnErr result (HoldsFront out.old (fraction_text align fraction) out.new) }
    ensures aligned { IsWholeBytes align out.new }
{
    let Some(digits) = fraction else {
        return out.put(0, 1, align);
    };
    out.put(1, 1, align)?;
    out.unsigned(digits)
}

/// Hour, minute, second and fraction where they count.
fn write_time(out: &mut BitOut, value: &Moment, align: Align) -> Result<(), AllocError>
    requires ranges { IsMoment value.now }
    requires aligned { IsWholeBytes align out.old }
    ensures ok { OnOk result (out.new ≡ out.old ++ time_text align value.now) }
    ensures err { OnErr result (HoldsFront out.old (time_text align value.now) out.new) }
    ensures aligned { IsWholeBytes align out.new }
{
    if !counts_time(value.kind) {
        return Ok(());
    }
    let minutes = u64::from(value.hour) * 64 + u64::from(value.minute);
    out.put(minutes * 64 + u64::from(value.second), 17, align)?;
    write_fraction(out, value.fraction, align)
}

/// Whether there is a zone, and its number.
fn write_zone(out: &mut BitOut, zone: Option<i16>, align: Align) -> Result<(), AllocError>
    requires range { IfSome zone (λ z. unsigned_abs z ≤ 840) }
    requires aligned { IsWholeBytes align out.old }
    ensures ok { OnOk result (out.new ≡ out.old ++ zone_text align zone) }
    ensures err { OnErr result (HoldsFront out.old (zone_text align zone) out.new) }
    ensures aligned { IsWholeBytes align out.new }
{
    let Some(zone) = zone else {
        return out.put(0, 1, align);
    };
    out.put(1, 1, align)?;
    out.put(zone_to_number(zone), 11, align)
}

/// Writes a date or a time (EXI 1.0, section 7.1.8), as [`read_moment`] reads it, in as few bits as
/// spell it.
///
/// The fields have to be in their ranges, as [`is_moment`] tells.
///
/// # Errors
///
/// Where there is no memory. Some of the first bits may then have been added.
///
/// [`is_moment`]: crate::is_moment
/// [`read_moment`]: crate::read_moment
#[tactic(auto, using(crate::proofs::Fronts::first_front, crate::proofs::Fronts::second_front, crate::proofs::Fronts::third_front, crate::proofs::Fronts::fourth_front), unfolding(crate::specs::Spelling::spelling))]
pub fn write_moment(out: &mut BitOut, value: &Moment, align: Align) -> Result<(), AllocError>
    requires ranges { IsMoment value.now }
    requires aligned { IsWholeBytes align out.old }
    ensures ok { OnOk result (out.new ≡ out.old ++ spelling align value.now) }
    ensures err { OnErr result (HoldsFront out.old (spelling align value.now) out.new) }
    ensures aligned { IsWholeBytes align out.new }
{
    write_year(out, value, align)?;
    write_month_day(out, value, align)?;
    write_time(out, value, align)?;
    write_zone(out, value.zone, align)
}
