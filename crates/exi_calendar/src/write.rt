//! From a value to its canonical text.

ghost use Rattle.std.specs.Prelude.{◌≡◌, ◌++◌, OnOk, OnErr, IfSome, IsTrue, string_bytes};
ghost use Rattle.std.specs.Option.{option_copied};
ghost use Rattle.exi_digits.specs.Pushed.{HoldsFront};
ghost use Rattle.exi_calendar.specs.Forms.{all_visible, date_text, field_text, fraction_text, moment_text, offset_text, time_text, year_text, zone_text};

use crate::layout::{day_marks, has_year, hour_marks, minute_marks, month_marks};
use exi_digits::{push_padded, push_two};
use exi_names::Moment;
use std::alloc::AllocError;

/// The year, with four digits at least, where the kind has one.
#[tactic(auto, using(crate::proofs::Visible::visible_year, crate::proofs::Fronts::behind_mark))]
fn push_year(out: &mut String, counts: bool, year: i64) -> Result<(), AllocError>
    ensures ok { OnOk result
        (string_bytes out.new ≡ string_bytes out.old ++ year_text counts year) }
    ensures err { OnErr result
        (HoldsFront (string_bytes out.old) (year_text counts year) (string_bytes out.new)) }
    ensures visible { OnOk result (IsTrue (all_visible (year_text counts year))) }
{
    if !counts {
        return Ok(());
    }
    if year < 0 {
        out.push('-')?;
    }
    push_padded(out, 4, year.unsigned_abs())
}

/// The marks of a field and its two digits, where the kind has it.
#[tactic(auto, using(crate::proofs::Visible::visible_field, crate::proofs::Fronts::second_of_two))]
fn push_field(out: &mut String, marks: Option<&str>, field: u8) -> Result<(), AllocError>
    requires { IfSome (option_copied marks) (λ m. IsTrue (all_visible m)) }
    ensures ok { OnOk result
        (string_bytes out.new ≡ string_bytes out.old
        ++ field_text (option_copied marks.entry) field) }
    ensures err { OnErr result
        (HoldsFront (string_bytes out.old) (field_text (option_copied marks.entry) field)
        (string_bytes out.new)) }
    ensures visible { OnOk result
        (IsTrue (all_visible (field_text (option_copied marks.entry) field))) }
{
    let Some(marks) = marks else {
        return Ok(());
    };
    out.push_str(marks)?;
    push_two(out, u16::from(field))
}

/// Year, month and day.
#[tactic(auto, using(crate::proofs::Visible::visible_append, crate::proofs::Fronts::first_of_three, crate::proofs::Fronts::second_of_three, crate::proofs::Fronts::third_of_three))]
fn push_date(out: &mut String, moment: &Moment) -> Result<(), AllocError>
    ensures ok { OnOk result (string_bytes out.new ≡ string_bytes out.old ++ date_text moment.now) }
    ensures err { OnErr result
        (HoldsFront (string_bytes out.old) (date_text moment.now) (string_bytes out.new)) }
    ensures visible { OnOk result (IsTrue (all_visible (date_text moment.now))) }
{
    push_year(out, has_year(moment.kind), moment.year)?;
    push_field(out, month_marks(moment.kind), moment.month)?;
    push_field(out, day_marks(moment.kind), moment.day)
}

/// Hour, minute and second.
#[tactic(auto, using(crate::proofs::Visible::visible_append, crate::proofs::Fronts::first_of_three, crate::proofs::Fronts::second_of_three, crate::proofs::Fronts::third_of_three))]
fn push_time(out: &mut String, moment: &Moment) -> Result<(), AllocError>
    ensures ok { OnOk result (string_bytes out.new ≡ string_bytes out.old ++ time_text moment.now) }
    ensures err { OnErr result
        (HoldsFront (string_bytes out.old) (time_text moment.now) (string_bytes out.new)) }
    ensures visible { OnOk result (IsTrue (all_visible (time_text moment.now))) }
{
    push_field(out, hour_marks(moment.kind), moment.hour)?;
    push_field(out, minute_marks(moment.kind), moment.minute)?;
    push_field(out, minute_marks(moment.kind), moment.second)
}

/// The fraction of a second, where there is one.
#[tactic(auto, using(crate::proofs::Visible::visible_fraction))]
fn push_fraction(out: &mut String, fraction: Option<u128>) -> Result<(), AllocError>
    ensures ok { OnOk result
        (string_bytes out.new ≡ string_bytes out.old ++ fraction_text fraction) }
    ensures err { OnErr result
        (HoldsFront (string_bytes out.old) (fraction_text fraction) (string_bytes out.new)) }
    ensures visible { OnOk result (IsTrue (all_visible (fraction_text fraction))) }
{
    let Some(back) = fraction else {
        return Ok(());
    };
    out.push('.')?;
    exi_digits::push_fraction(out, back)
}

/// Hours and minutes of a zone.
#[tactic(auto, using(crate::proofs::Visible::visible_offset, crate::proofs::Fronts::first_of_two, crate::proofs::Fronts::behind_both))]
fn push_offset(out: &mut String, minutes: u16) -> Result<(), AllocError>
    ensures ok { OnOk result (string_bytes out.new ≡ string_bytes out.old ++ offset_text minutes) }
    ensures err { OnErr result
        (HoldsFront (string_bytes out.old) (offset_text minutes) (string_bytes out.new)) }
    ensures visible { OnOk result (IsTrue (all_visible (offset_text minutes))) }
{
    push_two(out, minutes / 60)?;
    out.push(':')?;
    push_two(out, minutes % 60)
}

/// The zone, where there is one.
#[tactic(auto, using(crate::proofs::Fronts::behind_mark))]
fn push_zone(out: &mut String, zone: Option<i16>) -> Result<(), AllocError>
    ensures ok { OnOk result (string_bytes out.new ≡ string_bytes out.old ++ zone_text zone) }
    ensures err { OnErr result
        (HoldsFront (string_bytes out.old) (zone_text zone) (string_bytes out.new)) }
    ensures visible { OnOk result (IsTrue (all_visible (zone_text zone))) }
{
    let Some(zone) = zone else {
        return Ok(());
    };
    if zone == 0 {
        return out.push('Z');
    }
    out.push(if zone < 0 { '-' } else { '+' })?;
    push_offset(out, zone.unsigned_abs())
}

/// Puts the canonical text of a date or a time at the end: a year with four digits at least, a
/// fraction only where there is one and without zeros at its end, a zone of 0 as `Z`. Fields that the
/// kind does not have are not written.
///
/// [`moment`](crate::moment) reads the value back from it, where the fields are in their ranges.
///
/// # Errors
///
/// `AllocError` where memory is refused; the text then has a front of what was to be added, perhaps
/// none.
#[tactic(auto, using(crate::proofs::Visible::visible_append, crate::proofs::Fronts::first_of_four, crate::proofs::Fronts::second_of_four, crate::proofs::Fronts::third_of_four, crate::proofs::Fronts::fourth_of_four), unfolding(crate::specs::Forms::moment_text))]
pub fn push_moment(out: &mut String, moment: &Moment) -> Result<(), AllocError>
    ensures ok { OnOk result
        (string_bytes out.new ≡ string_bytes out.old ++ moment_text moment.now) }
    ensures err { OnErr result
        (HoldsFront (string_bytes out.old) (moment_text moment.now) (string_bytes out.new)) }
    ensures visible { OnOk result (IsTrue (all_visible (moment_text moment.now))) }
{
    push_date(out, moment)?;
    push_time(out, moment)?;
    push_fraction(out, moment.fraction)?;
    push_zone(out, moment.zone)
}
