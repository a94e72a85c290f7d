//! Spells events on pages.
//!
//! Each function writes the bytes that spell what it is given, for which there has to be room, in the order of its
//! parts. A text is copied as it lies in memory.
ghost use Rattle.std.specs.Prelude.{◌≡◌, ℕ, ◌+◌, ◌<◌, ◌≤◌, ◌^◌, ◌++◌, ◌∷◌, [], length};
ghost use Rattle.std.specs.Option.{option_copied};
ghost use Rattle.exi_names.specs.Seen.{seen, vals, values_of};
ghost use Rattle.exi_names.specs.Shown.{named, shown, shows};
ghost use Rattle.exi_tape.specs.Rolls.{times};
ghost use Rattle.exi_tape.specs.Spelling.{any_spelled, flag_spelled, fraction_spelled, held_spelled, integer_spelled, kind_byte, list_spelled, moment_spelled, name_spelled, number_spelled, octets_spelled, prefix_spelled, short_spelled, signed_spelled, spelled, text_spelled, value_spelled, values_spelled, wide_spelled, zone_spelled};

use crate::roll::Roll;
use crate::sizes::value_size;
use exi_names::{EventRef, Moment, MomentKind, NameRef, Txt, Val, ValList, ValRef, Whole};

/// A byte.
#[inline]
fn put_byte(roll: &mut Roll, byte: u8)
    requires room { 1 ≤ roll.old.room }
    ensures bytes { roll.new.bytes ≡ roll.old.bytes ++ byte ∷ [] }
    ensures room { roll.new.room + 1 ≡ roll.old.room }
    ensures pages { (k : ℕ) → times k roll.new.pages ≡ times k roll.old.pages }
{
    roll.write(&[byte]);
}

/// Whether something is so.
#[inline]
fn put_flag(roll: &mut Roll, flag: bool)
    requires room { 1 ≤ roll.old.room }
    ensures bytes { roll.new.bytes ≡ roll.old.bytes ++ flag_spelled flag }
    ensures room { roll.new.room + 1 ≡ roll.old.room }
    ensures pages { (k : ℕ) → times k roll.new.pages ≡ times k roll.old.pages }
{
    put_byte(roll, if flag { 1 } else { 0 });
}

/// A number.
#[inline]
#[tactic(auto, unfolding(crate::specs::Spelling::number_spelled))]
fn put_number(roll: &mut Roll, n: u64)
    requires room { length (number_spelled n) ≤ roll.old.room }
    ensures bytes { roll.new.bytes ≡ roll.old.bytes ++ number_spelled n }
    ensures room { roll.new.room + length (number_spelled n) ≡ roll.old.room }
    ensures pages { (k : ℕ) → times k roll.new.pages ≡ times k roll.old.pages }
{
    if n < 255 {
        put_byte(roll, n as u8);
    } else {
        put_byte(roll, 255);
        roll.write(&n.to_le_bytes());
    }
}

/// A number of 128 bits.
#[inline]
#[tactic(auto, unfolding(crate::specs::Spelling::wide_spelled))]
fn put_wide(roll: &mut Roll, n: u128)
    requires room { length (wide_spelled n) ≤ roll.old.room }
    ensures bytes { roll.new.bytes ≡ roll.old.bytes ++ wide_spelled n }
    ensures room { roll.new.room + length (wide_spelled n) ≡ roll.old.room }
    ensures pages { (k : ℕ) → times k roll.new.pages ≡ times k roll.old.pages }
{
    put_number(roll, (n % (1 << 64)) as u64);
    put_number(roll, (n >> 64) as u64);
}

/// A number of 64 bits with a sign.
#[tactic(auto, unfolding(crate::specs::Spelling::signed_spelled))]
fn put_signed(roll: &mut Roll, n: i64)
    requires room { length (signed_spelled n) ≤ roll.old.room }
    ensures bytes { roll.new.bytes ≡ roll.old.bytes ++ signed_spelled n }
    ensures room { roll.new.room + length (signed_spelled n) ≡ roll.old.room }
    ensures pages { (k : ℕ) → times k roll.new.pages ≡ times k roll.old.pages }
{
    put_number(roll, n.cast_unsigned());
}

/// A number of 16 bits with a sign.
#[tactic(auto, unfolding(crate::specs::Spelling::short_spelled))]
fn put_short(roll: &mut Roll, n: i16)
    requires room { length (short_spelled n) ≤ roll.old.room }
    ensures bytes { roll.new.bytes ≡ roll.old.bytes ++ short_spelled n }
    ensures room { roll.new.room + length (short_spelled n) ≡ roll.old.room }
    ensures pages { (k : ℕ) → times k roll.new.pages ≡ times k roll.old.pages }
{
    put_number(roll, u64::from(n.cast_unsigned()));
}

/// Bytes, after their number.
#[inline]
#[tactic(auto, unfolding(crate::specs::Spelling::octets_spelled))]
fn put_octets(roll: &mut Roll, octets: &[u8])
    requires room { length (octets_spelled octets.now) ≤ roll.old.room }
    ensures bytes { roll.new.bytes ≡ roll.old.bytes ++ octets_spelled octets.now }
    ensures room { roll.new.room + length (octets_spelled octets.now) ≡ roll.old.room }
    ensures pages { (k : ℕ) → times k roll.new.pages ≡ times k roll.old.pages }
{
    put_number(roll, octets.len() as u64);
    roll.write(octets);
}

/// A text.
#[inline]
#[tactic(auto, unfolding(crate::specs::Spelling::text_spelled))]
fn put_text(roll: &mut Roll, text: &Txt)
    requires room { length (text_spelled text.now) ≤ roll.old.room }
    ensures bytes { roll.new.bytes ≡ roll.old.bytes ++ text_spelled text.now }
    ensures room { roll.new.room + length (text_spelled text.now) ≡ roll.old.room }
    ensures pages { (k : ℕ) → times k roll.new.pages ≡ times k roll.old.pages }
{
    put_octets(roll, text.as_str().as_bytes());
}

/// A prefix that may be there.
#[inline]
#[tactic(auto, unfolding(crate::specs::Spelling::prefix_spelled))]
fn put_prefix(roll: &mut Roll, prefix: Option<&Txt>)
    requires room { length (prefix_spelled (option_copied prefix)) ≤ roll.old.room }
    ensures bytes { roll.new.bytes ≡ roll.old.bytes ++ prefix_spelled (option_copied prefix.entry) }
    ensures room { roll.new.room + length (prefix_spelled (option_copied prefix.entry)) ≡ roll.old.room }
    ensures pages { (k : ℕ) → times k roll.new.pages ≡ times k roll.old.pages }
{
    match prefix {
        None => put_byte(roll, 0),
        Some(text) => {
            put_byte(roll, 1);
            put_text(roll, text);
        }
    }
}

/// A name.
#[inline]
#[tactic(auto, unfolding(crate::specs::Spelling::name_spelled))]
fn put_name(roll: &mut Roll, name: &NameRef<'_>)
    requires room { length (name_spelled (named name.now)) ≤ roll.old.room }
    ensures bytes { roll.new.bytes ≡ roll.old.bytes ++ name_spelled (named name.now) }
    ensures room { roll.new.room + length (name_spelled (named name.now)) ≡ roll.old.room }
    ensures pages { (k : ℕ) → times k roll.new.pages ≡ times k roll.old.pages }
{
    put_text(roll, name.uri);
    put_text(roll, name.local);
    put_prefix(roll, name.prefix);
}

/// The fraction of a second.
#[tactic(auto, unfolding(crate::specs::Spelling::fraction_spelled))]
fn put_fraction(roll: &mut Roll, fraction: Option<u128>)
    requires room { length (fraction_spelled fraction) ≤ roll.old.room }
    ensures bytes { roll.new.bytes ≡ roll.old.bytes ++ fraction_spelled fraction }
    ensures room { roll.new.room + length (fraction_spelled fraction) ≡ roll.old.room }
    ensures pages { (k : ℕ) → times k roll.new.pages ≡ times k roll.old.pages }
{
    match fraction {
        None => put_byte(roll, 0),
        Some(n) => {
            put_byte(roll, 1);
            put_wide(roll, n);
        }
    }
}

/// A zone.
#[tactic(auto, unfolding(crate::specs::Spelling::zone_spelled))]
fn put_zone(roll: &mut Roll, zone: Option<i16>)
    requires room { length (zone_spelled zone) ≤ roll.old.room }
    ensures bytes { roll.new.bytes ≡ roll.old.bytes ++ zone_spelled zone }
    ensures room { roll.new.room + length (zone_spelled zone) ≡ roll.old.room }
    ensures pages { (k : ℕ) → times k roll.new.pages ≡ times k roll.old.pages }
{
    match zone {
        None => put_byte(roll, 0),
        Some(n) => {
            put_byte(roll, 1);
            put_short(roll, n);
        }
    }
}

/// The byte of a kind of date or time.
fn byte_of(kind: MomentKind) -> u8
    ensures { result ≡ kind_byte kind }
{
    match kind {
        MomentKind::GYear => 0,
        MomentKind::GYearMonth => 1,
        MomentKind::Date => 2,
        MomentKind::DateTime => 3,
        MomentKind::GMonth => 4,
        MomentKind::GMonthDay => 5,
        MomentKind::GDay => 6,
        MomentKind::Time => 7,
    }
}

/// A date or time.
#[tactic(auto, unfolding(crate::specs::Spelling::moment_spelled))]
fn put_moment(roll: &mut Roll, moment: &Moment)
    requires room { length (moment_spelled moment.now) ≤ roll.old.room }
    ensures bytes { roll.new.bytes ≡ roll.old.bytes ++ moment_spelled moment.now }
    ensures room { roll.new.room + length (moment_spelled moment.now) ≡ roll.old.room }
    ensures pages { (k : ℕ) → times k roll.new.pages ≡ times k roll.old.pages }
{
    put_byte(roll, byte_of(moment.kind));
    put_signed(roll, moment.year);
    roll.write(&[
        moment.month,
        moment.day,
        moment.hour,
        moment.minute,
        moment.second,
    ]);
    put_fraction(roll, moment.fraction);
    put_zone(roll, moment.zone);
}

/// An integer.
#[tactic(auto, unfolding(crate::specs::Spelling::integer_spelled))]
fn put_whole(roll: &mut Roll, whole: &Whole)
    requires room { length (integer_spelled whole.now) ≤ roll.old.room }
    ensures bytes { roll.new.bytes ≡ roll.old.bytes ++ integer_spelled whole.now }
    ensures room { roll.new.room + length (integer_spelled whole.now) ≡ roll.old.room }
    ensures pages { (k : ℕ) → times k roll.new.pages ≡ times k roll.old.pages }
{
    put_flag(roll, whole.minus);
    put_wide(roll, whole.size);
}

/// A value of any kind.
#[cycle(put)]
#[tactic(auto, unfolding(crate::specs::Spelling::value_spelled))]
fn put_value(roll: &mut Roll, value: &Val)
    requires room { length (value_spelled (seen value.now)) ≤ roll.old.room }
    ensures bytes { roll.new.bytes ≡ roll.old.bytes ++ value_spelled (seen value.now) }
    ensures room { roll.new.room + length (value_spelled (seen value.now)) ≡ roll.old.room }
    ensures pages { (k : ℕ) → times k roll.new.pages ≡ times k roll.old.pages }
{
    match value {
        Val::Text(text) => {
            put_byte(roll, 0);
            put_text(roll, text);
        }
        Val::Bool { yes, digit } => {
            put_byte(roll, 1);
            put_flag(roll, *yes);
            put_flag(roll, *digit);
        }
        Val::Int(whole) => {
            put_byte(roll, 2);
            put_whole(roll, whole);
        }
        Val::Dec { minus, whole, back } => {
            put_byte(roll, 3);
            put_flag(roll, *minus);
            put_wide(roll, *whole);
            put_wide(roll, *back);
        }
        Val::Flo { mantissa, exponent } => {
            put_byte(roll, 4);
            put_signed(roll, *mantissa);
            put_short(roll, *exponent);
        }
        Val::Mom(moment) => {
            put_byte(roll, 5);
            put_moment(roll, moment);
        }
        Val::Bin { hex, octets } => {
            put_byte(roll, 6);
            put_flag(roll, *hex);
            put_octets(roll, octets.as_slice());
        }
        Val::Items(list) => {
            put_byte(roll, 7);
            put_list(roll, list);
        }
        Val::Name(name) => {
            put_byte(roll, 8);
            put_name(roll, &name.as_ref());
        }
    }
}

/// The values of a list, after their number.
#[cycle(put)]
#[tactic(auto, unfolding(crate::specs::Spelling::values_spelled))]
fn put_list(roll: &mut Roll, list: &ValList)
    requires room { length (list_spelled (values_of (vals list.now))) ≤ roll.old.room }
    ensures bytes { roll.new.bytes ≡ roll.old.bytes ++ list_spelled (values_of (vals list.now)) }
    ensures room { roll.new.room + length (list_spelled (values_of (vals list.now))) ≡ roll.old.room }
    ensures pages { (k : ℕ) → times k roll.new.pages ≡ times k roll.old.pages }
{
    put_number(roll, list.items.len() as u64);
    for value in &list.items {
        put_value(roll, value);
    }
}

/// A value that is no text, after its own size.
#[tactic(auto, unfolding(crate::specs::Spelling::any_spelled))]
fn put_any(roll: &mut Roll, value: &Val)
    requires room { length (any_spelled (seen value.now)) ≤ roll.old.room }
    requires few { roll.old.room < 2 ^ 64 }
    ensures bytes { roll.new.bytes ≡ roll.old.bytes ++ any_spelled (seen value.now) }
    ensures room { roll.new.room + length (any_spelled (seen value.now)) ≡ roll.old.room }
    ensures pages { (k : ℕ) → times k roll.new.pages ≡ times k roll.old.pages }
{
    put_byte(roll, 1);
    put_number(roll, value_size(value));
    put_value(roll, value);
}

/// The value of an event.
#[inline]
#[tactic(auto, unfolding(crate::specs::Spelling::held_spelled))]
fn put_held(roll: &mut Roll, value: &ValRef<'_>)
    requires room { length (held_spelled (shown value.now)) ≤ roll.old.room }
    requires few { roll.old.room < 2 ^ 64 }
    ensures bytes { roll.new.bytes ≡ roll.old.bytes ++ held_spelled (shown value.now) }
    ensures room { roll.new.room + length (held_spelled (shown value.now)) ≡ roll.old.room }
    ensures pages { (k : ℕ) → times k roll.new.pages ≡ times k roll.old.pages }
{
    match value {
        ValRef::Text(text) => {
            put_byte(roll, 0);
            put_text(roll, text);
        }
        ValRef::Any(value) => match value {
            Val::Text(text) => {
                put_byte(roll, 0);
                put_text(roll, text);
            }
            Val::Bool { .. }
            | Val::Int(_)
            | Val::Dec { .. }
            | Val::Flo { .. }
            | Val::Mom(_)
            | Val::Bin { .. }
            | Val::Items(_)
            | Val::Name(_) => put_any(roll, value),
        },
    }
}

/// An event.
#[tactic(auto, unfolding(crate::specs::Spelling::spelled))]
pub(crate) fn put_event(roll: &mut Roll, event: &EventRef<'_>)
    requires room { length (spelled (shows event.now)) ≤ roll.old.room }
    requires few { roll.old.room < 2 ^ 64 }
    ensures bytes { roll.new.bytes ≡ roll.old.bytes ++ spelled (shows event.now) }
    ensures room { roll.new.room + length (spelled (shows event.now)) ≡ roll.old.room }
    ensures pages { (k : ℕ) → times k roll.new.pages ≡ times k roll.old.pages }
{
    match event {
        EventRef::Sd => put_byte(roll, 0),
        EventRef::Ed => put_byte(roll, 1),
        EventRef::Se(name) => {
            put_byte(roll, 2);
            put_name(roll, name);
        }
        EventRef::Ee => put_byte(roll, 3),
        EventRef::At(name, value) => {
            put_byte(roll, 4);
            put_name(roll, name);
            put_held(roll, value);
        }
        EventRef::Ch(value) => {
            put_byte(roll, 5);
            put_held(roll, value);
        }
        EventRef::Ns {
            uri,
            prefix,
            element,
        } => {
            put_byte(roll, 6);
            put_flag(roll, *element);
            put_text(roll, uri);
            put_text(roll, prefix);
        }
        EventRef::Sc { at } => {
            put_byte(roll, 7);
            put_number(roll, *at);
        }
        EventRef::Cm(text) => {
            put_byte(roll, 8);
            put_text(roll, text);
        }
        EventRef::Pi { target, text } => {
            put_byte(roll, 9);
            put_text(roll, target);
            put_text(roll, text);
        }
        EventRef::Dt {
            name,
            public,
            system,
            text,
        } => {
            put_byte(roll, 10);
            put_text(roll, name);
            put_text(roll, public);
            put_text(roll, system);
            put_text(roll, text);
        }
        EventRef::Er(name) => {
            put_byte(roll, 11);
            put_text(roll, name);
        }
    }
}
