//! Fields from the numbers of a stream, and back. `None` is a field out of its range.

ghost use Rattle.std.specs.Prelude.{◌≡◌, ◌+◌, ◌*◌, ◌<◌, ◌≤◌, ◌^◌, ◌-ℤ◌, pos, unsigned_abs, IfSome, IsTrue, Some};
ghost use Rattle.exi_names.specs.Moments.{is_month_day, is_time};
ghost use Rattle.exi_moment.specs.Reading.{signed, year_of, month_day_of, time_of, minutes_of, zone_of};
ghost use Rattle.exi_moment.specs.Spelling.{zone_number};

use crate::fields::{month_day_in_range, time_in_range};
use exi_names::MomentKind;

/// The year of a sign and a magnitude.
#[tactic(auto, unfolding(crate::specs::Reading::year_of))]
pub fn year(minus: bool, size: u128) -> Option<i64>
    ensures { result ≡ year_of minus size }
{
    // more is out of range on either side
    if size >= 1 << 64 {
        return None;
    }
    let size = size as i128;
    let year = if minus { 1999 - size } else { 2000 + size };
    i64::try_from(year).ok()
}

/// The year of a sign and a magnitude of one octet: it is in range.
#[tactic(auto, unfolding(crate::specs::Reading::year_of))]
#[inline(always)]
pub fn near_year(minus: bool, size: u64) -> i64
    requires { size < 128 }
    ensures { year_of minus size ≡ Some result }
{
    if minus {
        1999 - size as i64
    } else {
        2000 + size as i64
    }
}

/// The sign and the magnitude of a year.
pub fn year_parts(year: i64) -> (bool, u128)
    ensures { signed result.0 result.1 ≡ year -ℤ pos 2000 }
{
    let offset = i128::from(year) - 2000;
    if offset < 0 {
        (true, (-1 - offset) as u128)
    } else {
        (false, offset as u128)
    }
}

/// Month and day.
#[tactic(auto, unfolding(crate::specs::Reading::month_day_of))]
#[inline(always)]
pub fn month_day(kind: MomentKind, number: u64) -> Option<(u8, u8)>
    ensures { result ≡ month_day_of kind number }
{
    let month = number / 32;
    let day = number % 32;
    if month_day_in_range(kind, month, day) {
        Some((month as u8, day as u8))
    } else {
        None
    }
}

/// Hour, minute and second.
#[tactic(auto, unfolding(crate::specs::Reading::time_of))]
#[inline(always)]
pub fn time(number: u64) -> Option<(u8, u8, u8)>
    ensures { result ≡ time_of number }
{
    let hour = number / 4096;
    let minute = number / 64 % 64;
    let second = number % 64;
    if time_in_range(true, hour, minute, second) {
        Some((hour as u8, minute as u8, second as u8))
    } else {
        None
    }
}

/// The minutes of hours and minutes that stand side by side, whatever their sign.
#[tactic(auto, unfolding(crate::specs::Reading::minutes_of))]
#[inline(always)]
fn minutes(number: u64) -> Option<u64>
    ensures value { result ≡ minutes_of number }
    ensures few { IfSome result (λ m. m ≤ 840) }
{
    let minutes = number % 64;
    let all = number / 64 * 60 + minutes;
    if minutes < 60 && all <= 840 {
        Some(all)
    } else {
        None
    }
}

/// The zone of its number.
#[tactic(auto, unfolding(crate::specs::Reading::zone_of))]
#[inline(always)]
pub fn zone(number: u64) -> Option<i16>
    ensures { result ≡ zone_of number }
{
    if number < 896 {
        Some(-(minutes(896 - number)? as i16))
    } else {
        Some(minutes(number - 896)? as i16)
    }
}

/// The number of a zone.
pub fn zone_to_number(zone: i16) -> u64
    requires { unsigned_abs zone ≤ 840 }
    ensures value { result ≡ zone_number zone }
    ensures fits { result < 2 ^ 11 }
{
    let minutes = u64::from(zone.unsigned_abs());
    let distance = minutes / 60 * 64 + minutes % 60;
    if zone < 0 {
        896 - distance
    } else {
        896 + distance
    }
}
