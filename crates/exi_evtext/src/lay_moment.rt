//! Characters that are a date with a time, laid in a room of bytes.

ghost use Rattle.std.specs.Prelude.{◌≡◌, ◌≤◌, ◌+◌, ◌++◌, ◌∷◌, [], IfSome, length, take, true};
ghost use Rattle.exi_calendar.specs.Forms.{moment_text, year_text, zone_text};
ghost use Rattle.exi_digits.specs.Digits.{padded};

use crate::lay::{lay_byte, lay_run};
use exi_names::{Moment, MomentKind};
use itoa::Buffer;

/// A year of four digits or more.
#[inline(always)]
fn lay_year(room: &mut [u8], at: usize, year: i64) -> Option<usize>
    requires { at + 40 ≤ length room.old }
    ensures len { length room.new ≡ length room.old }
    ensures within { IfSome result (λ end. end ≤ at + 40) }
    ensures laid { IfSome result (λ end. take end room.new ≡ take at room.old ++ year_text true year) }
{
    let Ok(year) = u64::try_from(year) else {
        return None;
    };
    let mut buffer = Buffer::new();
    let digits = buffer.format(year).as_bytes();
    if digits.len() < 4 {
        return None;
    }
    Some(lay_run(room, at, digits))
}

/// A mark, and a field of two digits.
#[inline(always)]
fn lay_field(room: &mut [u8], at: usize, mark: u8, field: u8) -> Option<usize>
    requires { at + 3 ≤ length room.old }
    ensures len { length room.new ≡ length room.old }
    ensures within { IfSome result (λ end. end ≡ at + 3) }
    ensures laid { IfSome result (λ end. take end room.new ≡ take at room.old ++ mark ∷ padded 2 field) }
{
    if field >= 100 {
        return None;
    }
    let at = lay_byte(room, at, mark);
    let at = lay_byte(room, at, b'0' + field / 10);
    Some(lay_byte(room, at, b'0' + field % 10))
}

/// A zone, where it is that of UTC or none.
#[inline(always)]
fn lay_zone(room: &mut [u8], at: usize, zone: Option<i16>) -> Option<usize>
    requires { at + 1 ≤ length room.old }
    ensures len { length room.new ≡ length room.old }
    ensures within { IfSome result (λ end. end ≤ at + 1) }
    ensures laid { IfSome result (λ end. take end room.new ≡ take at room.old ++ zone_text zone) }
{
    match zone {
        None => Some(at),
        Some(0) => Some(lay_byte(room, at, b'Z')),
        Some(_) => None,
    }
}

/// The canonical text of a date with a time, where it is one of whole seconds, and of UTC or no zone.
#[inline(always)]
#[tactic(auto, unfolding(exi_calendar::specs::Forms::moment_text))]
pub fn lay_moment(room: &mut [u8], at: usize, moment: &Moment) -> Option<usize>
    requires { at + 64 ≤ length room.old }
    ensures len { length room.new ≡ length room.old }
    ensures within { IfSome result (λ end. end ≤ at + 60) }
    ensures laid { IfSome result (λ end. take end room.new ≡ take at room.old ++ moment_text moment.now) }
{
    if moment.kind != MomentKind::DateTime || moment.fraction.is_some() {
        return None;
    }
    let at = lay_year(room, at, moment.year)?;
    let at = lay_field(room, at, b'-', moment.month)?;
    let at = lay_field(room, at, b'-', moment.day)?;
    let at = lay_field(room, at, b'T', moment.hour)?;
    let at = lay_field(room, at, b':', moment.minute)?;
    let at = lay_field(room, at, b':', moment.second)?;
    lay_zone(room, at, moment.zone)
}
