//! From a text to its value: field by field, each behind the one before it.

ghost use Rattle.std.specs.Prelude.{◌≡◌, ◌≤◌, ◌+◌, ◌-◌, ◌*◌, IfSome, IsTrue, Some, length, option_map, pos, slice_index};
ghost use Rattle.std.specs.Option.{option_copied};
ghost use Rattle.exi_names.specs.declared.moment.MomentKind.TheVariants as form;
ghost use Rattle.exi_calendar.specs.Forms.{moment_text};
ghost use Rattle.exi_calendar.specs.Reading.{HasMarks, Reads, after_lead, date_time, digits_year_at, field_at, fraction_at, fraction_digits_at, is_long_enough, lead, lead_width, moment_value, offset_of, past, signed_year, two_digits_at, two_digits_of, year_at, year_of, zone_of};

use crate::layout::{day_marks, has_year, hour_marks, minute_marks, month_marks};
use exi_names::{Moment, MomentKind};

/// How many digits a text begins with.
fn lead_width(text: &[u8]) -> usize
    ensures width { result ≡ lead_width text.now }
    ensures within { result ≤ length text.now }
{
    for (place, byte) in text.iter().enumerate() {
        if !byte.is_ascii_digit() {
            return place;
        }
    }
    text.len()
}

/// The digits that a text begins with, and what stands behind them.
fn split_digits(text: &[u8]) -> (&[u8], &[u8])
    ensures digits { result.0.now ≡ lead text.now }
    ensures rest { result.1.now ≡ after_lead text.now }
{
    text.split_at(lead_width(text))
}

/// What stands behind these marks, where the text begins with them.
fn past<'a>(marks: &[u8], text: &'a [u8]) -> Option<&'a [u8]>
    ensures { option_copied result ≡ past marks.now text.now }
{
    text.strip_prefix(marks)
}

/// The number of two digits, within these bounds.
#[tactic(auto, unfolding(crate::specs::Reading::two_digits_of))]
fn two_digits(least: u8, most: u8, tens: u8, ones: u8) -> Option<u8>
    ensures { result ≡ two_digits_of least most tens ones }
{
    if !tens.is_ascii_digit() || !ones.is_ascii_digit() {
        return None;
    }
    let number = (tens - b'0') * 10 + (ones - b'0');
    if least <= number && number <= most {
        Some(number)
    } else {
        None
    }
}

/// The number of the two digits that a text begins with, within these bounds, and what stands behind
/// them.
fn two_digits_in_front(least: u8, most: u8, text: &[u8]) -> Option<(u8, &[u8])>
    ensures { Reads result (two_digits_at least most text.now) }
{
    let (digits, rest) = text.split_at_checked(2)?;
    Some((two_digits(least, most, digits[0], digits[1])?, rest))
}

/// The field behind its marks, within these bounds, and what stands behind it; 0 where the kind does
/// not have the field.
#[tactic(auto, unfolding(crate::specs::Reading::field_at))]
fn field<'a>(marks: Option<&str>, least: u8, most: u8, text: &'a [u8]) -> Option<(u8, &'a [u8])>
    ensures { Reads result (field_at (option_copied marks.entry) least most text.now) }
{
    let Some(marks) = marks else {
        return Some((0, text));
    };
    two_digits_in_front(least, most, past(marks.as_bytes(), text)?)
}

/// The year of a sign and a number: it fits 64 bits, and there is no year -0.
fn signed_year(minus: bool, number: u128) -> Option<i64>
    ensures { result ≡ signed_year minus number }
{
    if !minus {
        return i64::try_from(number).ok();
    }
    if number == 0 || number > 1 << 63 {
        return None;
    }
    i64::try_from(-(number as i128)).ok()
}

/// Whether a year has four digits, or more without a 0 in front.
fn is_long_enough(digits: &[u8]) -> bool
    ensures { result ≡ is_long_enough digits.now }
{
    digits.len() == 4 || digits.len() > 4 && digits[0] != b'0'
}

/// The year of a sign and its digits.
#[tactic(auto, unfolding(crate::specs::Reading::year_of))]
fn year_of(minus: bool, digits: &[u8]) -> Option<i64>
    ensures { result ≡ year_of minus digits.now }
{
    if !is_long_enough(digits) {
        return None;
    }
    signed_year(minus, exi_digits::number(digits)?)
}

/// The year of a sign and the digits that a text begins with, and what stands behind them.
#[tactic(auto, unfolding(crate::specs::Reading::digits_year_at))]
fn digits_year(minus: bool, text: &[u8]) -> Option<(i64, &[u8])>
    ensures { Reads result (digits_year_at minus text.now) }
{
    let (digits, rest) = split_digits(text);
    Some((year_of(minus, digits)?, rest))
}

/// The year that a text begins with, and what stands behind it; 0 where the kind does not have one.
#[tactic(auto, unfolding(crate::specs::Reading::year_at))]
fn year(counts: bool, text: &[u8]) -> Option<(i64, &[u8])>
    ensures { Reads result (year_at counts text.now) }
{
    if !counts {
        return Some((0, text));
    }
    match past(b"-", text) {
        Some(digits) => digits_year(true, digits),
        None => digits_year(false, text),
    }
}

/// The fraction's digits behind its point, one at least, and what stands behind them.
#[tactic(auto, unfolding(crate::specs::Reading::fraction_digits_at))]
fn fraction_digits(text: &[u8]) -> Option<(Option<u128>, &[u8])>
    ensures { Reads result (fraction_digits_at text.now) }
{
    let (digits, rest) = split_digits(text);
    if digits.is_empty() {
        return None;
    }
    Some((Some(exi_digits::back(digits)?), rest))
}

/// The fraction that a text begins with, where seconds stand in front of it, and what stands behind
/// it.
#[tactic(auto, unfolding(crate::specs::Reading::fraction_at))]
fn fraction<'a>(marks: Option<&str>, text: &'a [u8]) -> Option<(Option<u128>, &'a [u8])>
    ensures { Reads result (fraction_at (option_copied marks.entry) text.now) }
{
    if marks.is_none() {
        return Some((None, text));
    }
    match past(b".", text) {
        Some(digits) => fraction_digits(digits),
        None => Some((None, text)),
    }
}

/// The minutes that `hh:mm` stands for: at most 14 hours.
#[tactic(auto, unfolding(crate::specs::Reading::offset_of))]
fn offset(text: &[u8]) -> Option<i16>
    ensures { result ≡ option_map pos (offset_of text.now) }
{
    let (hours, text) = field(Some(""), 0, 14, text)?;
    let (minutes, text) = field(Some(":"), 0, 59, text)?;
    let all = i16::from(hours) * 60 + i16::from(minutes);
    if text.is_empty() && all <= 840 {
        Some(all)
    } else {
        None
    }
}

/// The zone, in minutes east of UTC, which is all of a text; an empty text has none.
#[tactic(auto, unfolding(crate::specs::Reading::zone_of))]
fn zone(text: &[u8]) -> Option<Option<i16>>
    ensures { result ≡ zone_of text.now }
{
    let Some((mark, rest)) = text.split_first() else {
        return Some(None);
    };
    match *mark {
        b'+' => Some(Some(offset(rest)?)),
        b'-' => Some(Some(-offset(rest)?)),
        b'Z' if rest.is_empty() => Some(Some(0)),
        _ => None,
    }
}

/// Whether the marks of `YYYY-MM-DDThh:mm:ssZ` stand at their places.
#[inline(always)]
fn has_marks(text: &[u8]) -> bool
    requires { length text.now ≡ 20 }
    ensures { IsTrue result → HasMarks text.now }
{
    text[4] == b'-'
        && text[7] == b'-'
        && text[10] == b'T'
        && text[13] == b':'
        && text[16] == b':'
        && text[19] == b'Z'
}

/// The date with a time, of whole seconds and UTC, that has these fields, its year in two parts.
#[inline(always)]
fn date_time(century: u8, years: u8, month: u8, day: u8, hour: u8, minute: u8, second: u8) -> Moment
    ensures { result ≡ date_time (pos (century * 100 + years)) month day hour minute second }
{
    Moment {
        kind: MomentKind::DateTime,
        year: i64::from(century) * 100 + i64::from(years),
        month,
        day,
        hour,
        minute,
        second,
        fraction: None,
        zone: Some(0),
    }
}

/// The date with a time of a canonical text in its most frequent form, `YYYY-MM-DDThh:mm:ssZ` (XML Schema 1.0 Part 2,
/// section 3.2.7): its digits are taken by their places. `None` is no promise: where the text has another form, or a field
/// is out of its range, it may still be that of a date or a time, which [`moment`] tells. Takes no memory.
pub fn whole_seconds(text: &[u8]) -> Option<Moment>
    // it is the value of the text
    ensures value { IfSome result (λ m. moment_value form.DateTime text.now ≡ Some m) }
    // of which the text is the canonical one
    ensures canonical { IfSome result (λ m. moment_text m ≡ text.now) }
{
    if text.len() != 20 || !has_marks(text) {
        return None;
    }
    let century = two_digits(0, 99, text[0], text[1])?;
    let years = two_digits(0, 99, text[2], text[3])?;
    let month = two_digits(1, 12, text[5], text[6])?;
    let day = two_digits(1, 31, text[8], text[9])?;
    let hour = two_digits(0, 24, text[11], text[12])?;
    let minute = two_digits(0, 59, text[14], text[15])?;
    let second = two_digits(0, 60, text[17], text[18])?;
    Some(date_time(century, years, month, day, hour, minute, second))
}

/// The date or the time of a kind that a text stands for (XML Schema 1.0 Part 2, sections 3.2.7 to
/// 3.2.14), or `None` where the text has not the form of the kind or a field is out of its range. The
/// text has no white space around it. Takes no memory.
///
/// The year fits 64 bits. Day 31 is taken in any month, any minute in hour 24, and second 60; the
/// zone is at most 14 hours either way. The digits of a fraction, read backwards, are a number below
/// 2^128. A field that the kind does not have is 0 in the value.
#[tactic(auto, unfolding(crate::specs::Reading::moment_value))]
pub fn moment(kind: MomentKind, text: &[u8]) -> Option<Moment>
    ensures { result ≡ moment_value kind text.now }
{
    if kind == MomentKind::DateTime {
        // Most have this form, and are then soon read.
        if let Some(moment) = whole_seconds(text) {
            return Some(moment);
        }
    }
    let (year, text) = year(has_year(kind), text)?;
    let (month, text) = field(month_marks(kind), 1, 12, text)?;
    let (day, text) = field(day_marks(kind), 1, 31, text)?;
    let (hour, text) = field(hour_marks(kind), 0, 24, text)?;
    let (minute, text) = field(minute_marks(kind), 0, 59, text)?;
    let (second, text) = field(minute_marks(kind), 0, 60, text)?;
    let (fraction, text) = fraction(minute_marks(kind), text)?;
    let zone = zone(text)?;
    Some(Moment {
        kind,
        year,
        month,
        day,
        hour,
        minute,
        second,
        fraction,
        zone,
    })
}
