//! Which fields a kind has, and the marks that stand in front of each.

ghost use Rattle.std.specs.Prelude.{◌≡◌, IfSome, IsTrue};
ghost use Rattle.std.specs.Option.{option_copied};
ghost use Rattle.exi_calendar.specs.Forms.{all_visible};
ghost use Rattle.exi_calendar.specs.Parts.{layout};

use exi_names::MomentKind;

/// Whether the kind has a year, which stands first.
pub fn has_year(kind: MomentKind) -> bool
    ensures { result ≡ (layout kind).year }
{
    match kind {
        MomentKind::GYear | MomentKind::GYearMonth | MomentKind::Date | MomentKind::DateTime =>
            true,
        MomentKind::GMonth | MomentKind::GMonthDay | MomentKind::GDay | MomentKind::Time => false,
    }
}

/// The marks in front of the month, where the kind has one.
pub fn month_marks(kind: MomentKind) -> Option<&'static str>
    ensures marks { option_copied result ≡ (layout kind).month }
    ensures visible { IfSome (option_copied result) (λ m. IsTrue (all_visible m)) }
{
    match kind {
        MomentKind::GYearMonth | MomentKind::Date | MomentKind::DateTime => Some("-"),
        MomentKind::GMonth | MomentKind::GMonthDay => Some("--"),
        MomentKind::GYear | MomentKind::GDay | MomentKind::Time => None,
    }
}

/// The marks in front of the day, where the kind has one.
pub fn day_marks(kind: MomentKind) -> Option<&'static str>
    ensures marks { option_copied result ≡ (layout kind).day }
    ensures visible { IfSome (option_copied result) (λ m. IsTrue (all_visible m)) }
{
    match kind {
        MomentKind::Date | MomentKind::DateTime | MomentKind::GMonthDay => Some("-"),
        MomentKind::GDay => Some("---"),
        MomentKind::GYear | MomentKind::GYearMonth | MomentKind::GMonth | MomentKind::Time => None,
    }
}

/// The marks in front of the hour, where the kind has a time of day.
pub fn hour_marks(kind: MomentKind) -> Option<&'static str>
    ensures marks { option_copied result ≡ (layout kind).hour }
    ensures visible { IfSome (option_copied result) (λ m. IsTrue (all_visible m)) }
{
    match kind {
        MomentKind::DateTime => Some("T"),
        MomentKind::Time => Some(""),
        MomentKind::GYear
        | MomentKind::GYearMonth
        | MomentKind::Date
        | MomentKind::GMonth
        | MomentKind::GMonthDay
        | MomentKind::GDay => None,
    }
}

/// The marks in front of the minute, and of the second, where the kind has a time of day.
pub fn minute_marks(kind: MomentKind) -> Option<&'static str>
    ensures minute { option_copied result ≡ (layout kind).minute }
    ensures second { option_copied result ≡ (layout kind).second }
    ensures visible { IfSome (option_copied result) (λ m. IsTrue (all_visible m)) }
{
    match kind {
        MomentKind::DateTime | MomentKind::Time => Some(":"),
        MomentKind::GYear
        | MomentKind::GYearMonth
        | MomentKind::Date
        | MomentKind::GMonth
        | MomentKind::GMonthDay
        | MomentKind::GDay => None,
    }
}
