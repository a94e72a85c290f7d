ghost use Rattle.std.specs.Prelude.{◌≡◌, ◌↔◌, IsTrue};
ghost use Rattle.exi_names.specs.Moments.{fields, has_month_day, is_in, is_month_day, is_time, IsMoment};

use exi_names::{Moment, MomentKind};

/// Whether the kind has a year.
pub fn counts_year(kind: MomentKind) -> bool
    ensures { result ≡ (fields kind).year }
{
    match kind {
        MomentKind::GYear | MomentKind::GYearMonth | MomentKind::Date | MomentKind::DateTime =>
            true,
        MomentKind::GMonth | MomentKind::GMonthDay | MomentKind::GDay | MomentKind::Time => false,
    }
}

/// Whether the kind has a month.
fn counts_month(kind: MomentKind) -> bool
    ensures { result ≡ (fields kind).month }
{
    match kind {
        MomentKind::GYear | MomentKind::GDay | MomentKind::Time => false,
        MomentKind::GYearMonth
        | MomentKind::Date
        | MomentKind::DateTime
        | MomentKind::GMonth
        | MomentKind::GMonthDay => true,
    }
}

/// Whether the kind has a day.
fn counts_day(kind: MomentKind) -> bool
    ensures { result ≡ (fields kind).day }
{
    match kind {
        MomentKind::Date | MomentKind::DateTime | MomentKind::GMonthDay | MomentKind::GDay => true,
        MomentKind::GYear | MomentKind::GYearMonth | MomentKind::GMonth | MomentKind::Time => false,
    }
}

/// Whether month and day are spelled.
pub fn counts_month_day(kind: MomentKind) -> bool
    ensures { result ≡ has_month_day kind }
{
    match kind {
        MomentKind::GYear | MomentKind::Time => false,
        MomentKind::GYearMonth
        | MomentKind::Date
        | MomentKind::DateTime
        | MomentKind::GMonth
        | MomentKind::GMonthDay
        | MomentKind::GDay => true,
    }
}

/// Whether the kind has a time of day.
pub fn counts_time(kind: MomentKind) -> bool
    ensures { result ≡ (fields kind).time }
{
    match kind {
        MomentKind::DateTime | MomentKind::Time => true,
        MomentKind::GYear
        | MomentKind::GYearMonth
        | MomentKind::Date
        | MomentKind::GMonth
        | MomentKind::GMonthDay
        | MomentKind::GDay => false,
    }
}

/// Whether a field that counts is in its range, and one that does not is 0.
fn in_range(counts: bool, least: u64, most: u64, field: u64) -> bool
    ensures { result ≡ is_in counts least most field }
{
    if counts {
        least <= field && field <= most
    } else {
        field == 0
    }
}

/// Whether month and day are in their ranges for the kind.
pub fn month_day_in_range(kind: MomentKind, month: u64, day: u64) -> bool
    ensures { result ≡ is_month_day kind month day }
{
    in_range(counts_month(kind), 1, 12, month) && in_range(counts_day(kind), 1, 31, day)
}

/// Whether a time of day is in its ranges: to 24 hours and 60 seconds.
pub fn time_in_range(counts: bool, hour: u64, minute: u64, second: u64) -> bool
    ensures { result ≡ is_time counts hour minute second }
{
    in_range(counts, 0, 24, hour)
        && in_range(counts, 0, 59, minute)
        && in_range(counts, 0, 60, second)
}

/// Whether the fields are in their ranges, as [`write_moment`] wants them (EXI 1.0, section 7.1.8).
///
/// Month 1 to 12, day 1 to 31 in any month, hour to 24, minute to 59, second to 60, zone at most 840
/// minutes either way; a field that the kind does not have is 0 or `None`.
///
/// [`write_moment`]: crate::write_moment
pub fn is_moment(value: &Moment) -> bool
    ensures { IsTrue result ↔ IsMoment value.now }
{
    (counts_year(value.kind) || value.year == 0)
        && month_day_in_range(value.kind, u64::from(value.month), u64::from(value.day))
        && time_in_range(
            counts_time(value.kind),
            u64::from(value.hour),
            u64::from(value.minute),
            u64::from(value.second),
        )
        && (counts_time(value.kind) || value.fraction.is_none())
        && value.zone.is_none_or(|zone| zone.unsigned_abs() <= 840)
}
