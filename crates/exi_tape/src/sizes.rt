//! How many bytes spell an event.
//!
//! A size that passes 2^64 - 1 is given as that number. Each function also says that what it measures can be spelled
//! at all, which the types of names and values see to.
ghost use Rattle.std.specs.Prelude.{◌≡◌, ◌+◌, ◌<◌, ◌^◌, length, FitsSigned};
ghost use Rattle.std.specs.Option.{option_copied};
ghost use Rattle.std.specs.Int.{w16, w64};
ghost use Rattle.exi_names.specs.Seen.{seen, vals, values_of};
ghost use Rattle.exi_names.specs.Shown.{named, shown, shows};
ghost use Rattle.exi_tape.specs.Rolls.{capped};
ghost use Rattle.exi_tape.specs.Spelling.{any_spelled, fraction_spelled, held_spelled, integer_spelled, list_spelled, moment_spelled, name_spelled, number_spelled, octets_spelled, prefix_spelled, short_spelled, signed_spelled, spelled, text_spelled, value_spelled, values_spelled, wide_spelled, zone_spelled};
ghost use Rattle.exi_tape.specs.Sound.{Sound, SoundFraction, SoundList, SoundMoment, SoundName, SoundNumber, SoundPrefix, SoundText, SoundValue, SoundValues, SoundZone};

use exi_names::{EventRef, Moment, NameRef, Txt, Val, ValList, ValRef, Whole};

/// A number.
#[inline]
#[tactic(auto, unfolding(crate::specs::Spelling::number_spelled))]
pub(crate) fn number_size(n: u64) -> u64
    ensures size { result ≡ length (number_spelled n) }
    ensures sound { n < 2 ^ 64 }
    ensures few { result < 10 }
{
    if n < 255 { 1 } else { 9 }
}

/// A number of 128 bits.
#[inline]
#[tactic(auto, unfolding(crate::specs::Spelling::wide_spelled))]
fn wide_size(n: u128) -> u64
    ensures size { result ≡ length (wide_spelled n) }
    ensures sound { n < 2 ^ 128 }
    ensures few { result < 19 }
{
    number_size((n % (1 << 64)) as u64) + number_size((n >> 64) as u64)
}

/// A number of 64 bits with a sign.
#[inline]
#[tactic(auto, unfolding(crate::specs::Spelling::signed_spelled))]
fn signed_size(n: i64) -> u64
    ensures size { result ≡ length (signed_spelled n) }
    ensures sound { FitsSigned w64 n }
    ensures few { result < 10 }
{
    number_size(n.cast_unsigned())
}

/// A number of 16 bits with a sign.
#[inline]
#[tactic(auto, unfolding(crate::specs::Spelling::short_spelled))]
fn short_size(n: i16) -> u64
    ensures size { result ≡ length (short_spelled n) }
    ensures sound { FitsSigned w16 n }
    ensures few { result < 10 }
{
    number_size(u64::from(n.cast_unsigned()))
}

/// Bytes, after their number.
#[inline]
#[tactic(auto, unfolding(crate::specs::Spelling::octets_spelled))]
fn octets_size(octets: &[u8]) -> u64
    ensures size { result ≡ capped (length (octets_spelled octets.now)) }
    ensures sound { length octets.now < 2 ^ 64 }
{
    let count = octets.len() as u64;
    number_size(count).saturating_add(count)
}

/// A text.
#[inline]
#[tactic(auto, unfolding(crate::specs::Spelling::text_spelled))]
fn text_size(text: &Txt) -> u64
    ensures size { result ≡ capped (length (text_spelled text.now)) }
    ensures sound { SoundText text.now }
{
    octets_size(text.as_str().as_bytes())
}

/// A prefix that may be there.
#[inline]
#[tactic(auto, unfolding(crate::specs::Spelling::prefix_spelled))]
fn prefix_size(prefix: Option<&Txt>) -> u64
    ensures size { result ≡ capped (length (prefix_spelled (option_copied prefix.entry))) }
    ensures sound { SoundPrefix (option_copied prefix.entry) }
{
    match prefix {
        None => 1,
        Some(text) => text_size(text).saturating_add(1),
    }
}

/// A name.
#[inline]
#[tactic(auto, unfolding(crate::specs::Spelling::name_spelled))]
fn name_size(name: &NameRef<'_>) -> u64
    ensures size { result ≡ capped (length (name_spelled (named name.now))) }
    ensures sound { SoundName (named name.now) }
{
    text_size(name.uri)
        .saturating_add(text_size(name.local))
        .saturating_add(prefix_size(name.prefix))
}

/// The fraction of a second.
#[tactic(auto, unfolding(crate::specs::Spelling::fraction_spelled))]
fn fraction_size(fraction: Option<u128>) -> u64
    ensures size { result ≡ length (fraction_spelled fraction) }
    ensures sound { SoundFraction fraction }
    ensures few { result < 20 }
{
    match fraction {
        None => 1,
        Some(n) => 1 + wide_size(n),
    }
}

/// A zone.
#[tactic(auto, unfolding(crate::specs::Spelling::zone_spelled))]
fn zone_size(zone: Option<i16>) -> u64
    ensures size { result ≡ length (zone_spelled zone) }
    ensures sound { SoundZone zone }
    ensures few { result < 11 }
{
    match zone {
        None => 1,
        Some(n) => 1 + short_size(n),
    }
}

/// A date or time.
#[tactic(auto, unfolding(crate::specs::Spelling::moment_spelled))]
fn moment_size(moment: &Moment) -> u64
    ensures size { result ≡ length (moment_spelled moment.now) }
    ensures sound { SoundMoment moment.now }
    ensures few { result < 50 }
{
    6 + signed_size(moment.year) + fraction_size(moment.fraction) + zone_size(moment.zone)
}

/// An integer.
#[tactic(auto, unfolding(crate::specs::Spelling::integer_spelled))]
fn whole_size(whole: &Whole) -> u64
    ensures size { result ≡ length (integer_spelled whole.now) }
    ensures sound { SoundNumber whole.now }
    ensures few { result < 30 }
{
    1 + wide_size(whole.size)
}

/// A value of any kind.
#[cycle(size)]
#[tactic(auto, unfolding(crate::specs::Spelling::value_spelled))]
pub(crate) fn value_size(value: &Val) -> u64
    ensures size { result ≡ capped (length (value_spelled (seen value.now))) }
    ensures sound { SoundValue (seen value.now) }
{
    match value {
        Val::Text(text) => text_size(text).saturating_add(1),
        Val::Bool { .. } => 3,
        Val::Int(whole) => 1 + whole_size(whole),
        Val::Dec { whole, back, .. } => 2 + wide_size(*whole) + wide_size(*back),
        Val::Flo { mantissa, exponent } => 1 + signed_size(*mantissa) + short_size(*exponent),
        Val::Mom(moment) => 1 + moment_size(moment),
        Val::Bin { octets, .. } => octets_size(octets.as_slice()).saturating_add(2),
        Val::Items(list) => list_size(list).saturating_add(1),
        Val::Name(name) => name_size(&name.as_ref()).saturating_add(1),
    }
}

/// The values of a list, after their number.
#[cycle(size)]
#[tactic(auto, unfolding(crate::specs::Spelling::values_spelled))]
fn list_size(list: &ValList) -> u64
    ensures size { result ≡ capped (length (list_spelled (values_of (vals list.now)))) }
    ensures sound { SoundList (values_of (vals list.now)) }
{
    let mut size = number_size(list.items.len() as u64);
    for value in &list.items {
        size = size.saturating_add(value_size(value));
    }
    size
}

/// A value that is no text, after its own size.
#[tactic(auto, unfolding(crate::specs::Spelling::any_spelled))]
fn any_size(value: &Val) -> u64
    ensures size { result ≡ capped (length (any_spelled (seen value.now))) }
    ensures sound { SoundValue (seen value.now) }
{
    let size = value_size(value);
    number_size(size).saturating_add(size).saturating_add(1)
}

/// The value of an event.
#[tactic(auto, unfolding(crate::specs::Spelling::held_spelled))]
fn held_size(value: &ValRef<'_>) -> u64
    ensures size { result ≡ capped (length (held_spelled (shown value.now))) }
    ensures sound { SoundValue (shown value.now) }
{
    match value {
        ValRef::Text(text) => text_size(text).saturating_add(1),
        ValRef::Any(value) => match value {
            Val::Text(text) => text_size(text).saturating_add(1),
            Val::Bool { .. }
            | Val::Int(_)
            | Val::Dec { .. }
            | Val::Flo { .. }
            | Val::Mom(_)
            | Val::Bin { .. }
            | Val::Items(_)
            | Val::Name(_) => any_size(value),
        },
    }
}

/// An event.
#[tactic(auto, unfolding(crate::specs::Spelling::spelled))]
pub(crate) fn event_size(event: &EventRef<'_>) -> u64
    ensures size { result ≡ capped (length (spelled (shows event.now))) }
    ensures sound { Sound (shows event.now) }
{
    match event {
        EventRef::Sd | EventRef::Ed | EventRef::Ee => 1,
        EventRef::Se(name) => name_size(name).saturating_add(1),
        EventRef::At(name, value) => name_size(name)
            .saturating_add(held_size(value))
            .saturating_add(1),
        EventRef::Ch(value) => held_size(value).saturating_add(1),
        EventRef::Ns { uri, prefix, .. } => text_size(uri)
            .saturating_add(text_size(prefix))
            .saturating_add(2),
        EventRef::Sc { at } => 1 + number_size(*at),
        EventRef::Cm(text) | EventRef::Er(text) => text_size(text).saturating_add(1),
        EventRef::Pi { target, text } => text_size(target)
            .saturating_add(text_size(text))
            .saturating_add(1),
        EventRef::Dt {
            name,
            public,
            system,
            text,
        } => text_size(name)
            .saturating_add(text_size(public))
            .saturating_add(text_size(system))
            .saturating_add(text_size(text))
            .saturating_add(1),
    }
}
