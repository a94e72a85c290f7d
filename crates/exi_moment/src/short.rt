//! The most frequent date and time, taken as one word.

ghost use Rattle.std.specs.Prelude.{◌≡◌, ◌<◌, ◌/◌, ◌%◌, ◌^◌, ◌==◌, ℤ, None, Some, Ok, IfSome, MatchOption};
ghost use Rattle.exi_bits.specs.declared.align.Align.TheVariants as align;
ghost use Rattle.exi_names.specs.declared.moment.MomentKind.TheVariants as form;
ghost use Rattle.exi_moment.specs.Reading.{moment_at, month_day_of, time_of, year_of, zone_of};

use crate::numbers::{month_day, near_year, time, zone};
use exi_bits::{Align, BitIn};
use exi_names::MomentKind;

/// The fields of a date and time that has no fraction, and has a zone.
#[derive(Clone, Copy)]
pub struct DateTime {
    pub year: i64,
    pub month: u8,
    pub day: u8,
    pub hour: u8,
    pub minute: u8,
    pub second: u8,
    pub zone: i16,
}

/// The date and time of 48 bits: a year of one octet, no fraction, and a zone. `None` where they tell
/// another one or a field is out of its range.
#[inline(always)]
fn short_of(word: u64) -> Option<DateTime>
    ensures octet { IfSome result (λ d. word / 2 ^ 39 % 2 ^ 8 < 128) }
    ensures whole { IfSome result (λ d. word / 2 ^ 12 % 2 ^ 1 ≡ 0) }
    ensures zoned { IfSome result (λ d. word / 2 ^ 11 % 2 ^ 1 ≡ 1) }
    ensures year { IfSome result (λ d. year_of (word / 2 ^ 47 % 2 ^ 1 == 1) (word / 2 ^ 39 % 2 ^ 8) ≡ Some d.year) }
    ensures month_day { IfSome result (λ d. month_day_of form.DateTime (word / 2 ^ 30 % 2 ^ 9) ≡ Some (d.month, d.day)) }
    ensures time { IfSome result (λ d. time_of (word / 2 ^ 13 % 2 ^ 17) ≡ Some (d.hour, d.minute, d.second)) }
    ensures zone { IfSome result (λ d. zone_of (word / 2 ^ 0 % 2 ^ 11) ≡ Some d.zone) }
{
    let minus = word / (1 << 47) % 2;
    let size = word / (1 << 39) % 256;
    let fraction = word / (1 << 12) % 2;
    let zoned = word / (1 << 11) % 2;
    if size >= 128 || fraction != 0 || zoned != 1 {
        return None;
    }
    let (month, day) = month_day(MomentKind::DateTime, word / (1 << 30) % 512)?;
    let (hour, minute, second) = time(word / (1 << 13) % (1 << 17))?;
    let zone = zone(word % 2048)?;
    Some(DateTime {
        year: near_year(minus == 1, size),
        month,
        day,
        hour,
        minute,
        second,
        zone,
    })
}

/// Takes a date and time of 48 bits: one whose year takes one octet, with a zone and without a fraction.
///
/// `None` where there is none so, and the place is then as before.
#[inline(always)]
pub fn short_date_time(input: &mut BitIn<'_>) -> Option<DateTime>
    ensures read { MatchOption result (input.new ≡ input.old) (λ d. moment_at form.DateTime align.Bits input.old ≡ Ok (record { kind = form.DateTime; year = d.year; month = d.month; day = d.day; hour = d.hour; minute = d.minute; second = d.second; fraction = None; zone = Some d.zone }, input.new)) }
    ensures bytes { input.new.bytes ≡ input.old.bytes }
{
    let bit = input.at();
    let Some(word) = input.take(48, Align::Bits) else {
        return None;
    };
    match short_of(word) {
        Some(fields) => Some(fields),
        None => {
            input.go_to_bit(bit);
            None
        }
    }
}
