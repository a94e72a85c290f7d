ghost use Rattle.std.specs.Prelude.{◌≡◌, ◌+◌, ◌-◌, ◌%◌, ◌<◌, ◌≤◌, [], length, take, IfOk, IfErr, IfNone, IfSome, MatchOption, Ok, OnErr, option_copied};
ghost use Rattle.std.specs.Bool.{OnTrue};
ghost use Rattle.std.specs.Str.{IsAscii, IsUtf8, chars};
ghost use Rattle.exi_bits.specs.Bits.{IsAligned};
ghost use Rattle.exi_bits.specs.Unsigned.{Reads, ReadsSome, Stops, StopsAs};
ghost use Rattle.exi_bits.specs.Repeat.{times, with_front};
ghost use Rattle.exi_items.specs.Charges.{Charges, after_text, meter_after, text_charge};
ghost use Rattle.exi_text.specs.Literals.{code_at, in_set_at, chars_at};

use crate::plain::lay_plain;
use crate::room::{lay_char, push_room};
use crate::set::Set;
use exi_bits::{Align, BitIn, Fault, Kind, Stop};
use exi_items::charge_text;
use exi_meter::Meter;
use exi_names::{Alphabet, Txt, xml_char};
use std::alloc::{AllocError, Global};
use std::mem::replace;

/// A character whose code point takes an octet, two or three, all in the word that stands at the place.
/// None where it takes more, is no XML character, or fewer bits than a word has are left; nothing moves then.
#[inline(always)]
fn short_code(input: &mut BitIn<'_>) -> Option<char>
    ensures read { MatchOption result (input.new ≡ input.old) (λ c. code_at input.old ≡ Ok (c, input.new)) }
    ensures bytes { input.new.bytes ≡ input.old.bytes }
    ensures phase { input.new.place % 8 ≡ input.old.place % 8 }
{
    let bit = input.at();
    let Some(word) = input.take(64, Align::Bits) else {
        return None;
    };
    let behind = input.at();
    let octets = word.to_be_bytes();
    let first = u64::from(octets[0]);
    let second = u64::from(octets[1]);
    let third = u64::from(octets[2]);
    if first < 128 {
        if let Some(c) = xml_char(u128::from(first)) {
            input.go_to_bit(behind - 56);
            return Some(c);
        }
    } else if second < 128 {
        if let Some(c) = xml_char(u128::from(first - 128 + 128 * second)) {
            input.go_to_bit(behind - 48);
            return Some(c);
        }
    } else if third < 128 {
        if let Some(c) = xml_char(u128::from(first - 128 + 128 * (second - 128 + 128 * third))) {
            input.go_to_bit(behind - 40);
            return Some(c);
        }
    }
    input.go_to_bit(bit);
    None
}

/// A character by its code point, an Unsigned Integer.
///
/// # Errors
///
/// At the first bit of the code point: its own faults, and `BadChar` where it is no XML character.
#[tactic(auto, unfolding(crate::specs::Literals::code_at))]
fn code(input: &mut BitIn<'_>) -> Result<char, Fault>
    ensures read { Reads (λ x. x) result input.old input.new (code_at input.old) }
    ensures bytes { input.new.bytes ≡ input.old.bytes }
    ensures phase { input.new.place % 8 ≡ input.old.place % 8 }
{
    if let Some(c) = short_code(input) {
        return Ok(c);
    }
    let bit = input.at();
    let code = input.unsigned()?;
    match xml_char(code) {
        Some(c) => Ok(c),
        None => {
            input.go_to_bit(bit);
            Err(Fault {
                kind: Kind::BadChar,
                bit,
            })
        }
    }
}

/// A character by its place in the set, or by its code point behind the escape. After an `Err` the place
/// is anything.
#[tactic(auto, unfolding(crate::specs::Literals::in_set_at))]
fn in_set(input: &mut BitIn<'_>, set: &Set<'_>, align: Align) -> Result<char, Fault>
    requires aligned { IsAligned align input.old }
    ensures read { ReadsSome (λ x. x) result input.new (in_set_at set.now align input.old) }
    ensures bytes { input.new.bytes ≡ input.old.bytes }
    ensures aligned { IsAligned align input.new }
{
    let bit = input.at();
    let place = input.number(set.width(), align)?;
    if place < set.len() {
        return Ok(set.at(place));
    }
    if place == set.len() {
        return code(input);
    }
    Err(Fault {
        kind: Kind::BadChar,
        bit,
    })
}

/// How many bytes so many characters take at least, as far as the bits that are left can hold them.
fn room_for(input: &BitIn<'_>, count: u128, width: u32) -> usize {
    let width = width.max(1);
    u128::from(input.left() / u64::from(width)).min(count) as usize
}

/// Adds characters by their code points up to one of ASCII, and answers how many: at most so many. After
/// an `Err` the place is anything.
fn add_codes(input: &mut BitIn<'_>, text: &mut Txt, most: u128) -> Result<u128, Stop>
    requires some { 0 < most }
    ensures few { IfOk result (λ n. (0 < n) × (n ≤ most)) }
    ensures read { IfOk result (λ n. with_front text.new (times code_at (most - n) input.new) ≡ with_front text.old (times code_at most input.old)) }
    ensures fault { IfErr result (λ stop. StopsAs stop (with_front text.old (times code_at most input.old))) }
    ensures bytes { input.new.bytes ≡ input.old.bytes }
    ensures phase { input.new.place % 8 ≡ input.old.place % 8 }
{
    for before in 0..most {
        let c = code(input)?;
        text.push(c)?;
        if c.is_ascii() {
            return Ok(before + 1);
        }
    }
    Ok(most)
}

/// What was laid into a room: where it ends, and how many characters they are.
#[derive(Clone, Copy)]
struct Laid {
    end: usize,
    count: u64,
}

/// Lays plain characters into a room, a word at a time, as long as there are any and a word fits, and answers how many:
/// at most so many. Behind them the room may change.
#[inline(always)]
fn lay_run(input: &mut BitIn<'_>, room: &mut [u8], at: usize, most: u64) -> u64
    requires room { at + 8 ≤ length room.old }
    requires utf8 { IsUtf8 (take at room.old) }
    ensures few { result ≤ most }
    ensures end { at + result ≤ length room.old }
    ensures utf8 { IsUtf8 (take (at + result) room.new) }
    ensures ascii { IsAscii (take at room.old) → IsAscii (take (at + result) room.new) }
    ensures read { with_front (chars (take (at + result) room.new)) (times code_at (most - result) input.new) ≡ with_front (chars (take at room.old)) (times code_at most input.old) }
    ensures len { length room.new ≡ length room.old }
    ensures bytes { input.new.bytes ≡ input.old.bytes }
    ensures phase { input.new.place % 8 ≡ input.old.place % 8 }
{
    let room_left = (room.len() - at - 7) as u64;
    let words = room_left.min(most.saturating_sub(7));
    let mut count = 0;
    let mut last = 8;
    while last == 8 && count < words {
        last = lay_plain(input, room, at + count as usize, 8);
        count += last;
    }
    if last < 8 || count >= room_left || count == most {
        return count;
    }
    count + lay_plain(input, room, at + count as usize, most - count)
}

/// Lays characters into a room, at most so many: plain ones, and one behind them that takes three octets at most.
/// None is laid where the first is no such one, or fewer bits are left than a word has. Behind them the room may change.
#[inline(always)]
fn lay_both(input: &mut BitIn<'_>, room: &mut [u8], at: usize, most: u64) -> Laid
    requires room { at + 12 ≤ length room.old }
    requires utf8 { IsUtf8 (take at room.old) }
    ensures few { result.count ≤ most }
    ensures end { result.end ≤ length room.old }
    ensures utf8 { IsUtf8 (take result.end room.new) }
    ensures read { with_front (chars (take result.end room.new)) (times code_at (most - result.count) input.new) ≡ with_front (chars (take at room.old)) (times code_at most input.old) }
    ensures len { length room.new ≡ length room.old }
    ensures bytes { input.new.bytes ≡ input.old.bytes }
    ensures phase { input.new.place % 8 ≡ input.old.place % 8 }
{
    let run = lay_run(input, room, at, most);
    let end = at + run as usize;
    if run == most || room.len() - end < 4 {
        return Laid { end, count: run };
    }
    match short_code(input) {
        Some(c) => Laid {
            end: lay_char(room, end, c),
            count: run + 1,
        },
        None => Laid { end, count: run },
    }
}

/// Lays characters into a room, at most so many, as long as there are any that [`lay_both`] lays, or until it is nearly
/// full. Behind them the room may change.
#[inline(always)]
fn lay_here(input: &mut BitIn<'_>, room: &mut [u8], most: u64) -> Laid
    requires room { 12 ≤ length room.old }
    ensures few { result.count ≤ most }
    ensures end { result.end ≤ length room.old }
    ensures utf8 { IsUtf8 (take result.end room.new) }
    ensures read { with_front (chars (take result.end room.new)) (times code_at (most - result.count) input.new) ≡ times code_at most input.old }
    ensures len { length room.new ≡ length room.old }
    ensures bytes { input.new.bytes ≡ input.old.bytes }
    ensures phase { input.new.place % 8 ≡ input.old.place % 8 }
{
    let mut end = 0;
    let mut left = most;
    let mut last = 1;
    while last > 0 && left > 0 && room.len() - end >= 12 {
        let laid = lay_both(input, room, end, left);
        last = laid.count;
        left -= last;
        end = laid.end;
    }
    Laid {
        end,
        count: most - left,
    }
}

/// No octets.
const NONE: &[u8] = &[];

/// Lays characters into a room as [`lay_here`] does. The input is a local meanwhile, whose place needs no memory.
#[inline(always)]
fn lay_some(input: &mut BitIn<'_>, room: &mut [u8], most: u64) -> Laid
    requires room { 12 ≤ length room.old }
    ensures few { result.count ≤ most }
    ensures end { result.end ≤ length room.old }
    ensures utf8 { IsUtf8 (take result.end room.new) }
    ensures read { with_front (chars (take result.end room.new)) (times code_at (most - result.count) input.new) ≡ times code_at most input.old }
    ensures len { length room.new ≡ length room.old }
    ensures bytes { input.new.bytes ≡ input.old.bytes }
    ensures phase { input.new.place % 8 ≡ input.old.place % 8 }
{
    let mut here = replace(input, BitIn::new(NONE));
    let laid = lay_here(&mut here, room, most);
    *input = here;
    laid
}

/// How many octets of UTF-8 are laid side by side before they are added to a text.
const MIXED: usize = 256;

/// Adds characters by their code points as long as each takes three octets at most and a word is left, and
/// answers how many: at most so many. After an `Err` the place is anything.
#[inline(always)]
fn add_short(input: &mut BitIn<'_>, text: &mut Txt, most: u128) -> Result<u64, AllocError>
    ensures few { IfOk result (λ n. n ≤ most) }
    ensures read { IfOk result (λ n. with_front text.new (times code_at (most - n) input.new) ≡ with_front text.old (times code_at most input.old)) }
    ensures bytes { input.new.bytes ≡ input.old.bytes }
    ensures phase { input.new.place % 8 ≡ input.old.place % 8 }
{
    if most >= 0x1_0000_0000_0000_0000 {
        return Ok(0);
    }
    let count = most as u64;
    let mut left = count;
    let mut room = [0u8; MIXED];
    let mut last = 1;
    while last > 0 && left > 0 {
        let laid = lay_some(input, &mut room, left);
        push_room(text, &room, laid.end)?;
        last = laid.count;
        left -= last;
    }
    Ok(count - left)
}

/// Adds characters by their code points, of which some may be more than an octet. After an `Err` the place is
/// anything.
#[cold]
#[inline(never)]
fn add_others(input: &mut BitIn<'_>, text: &mut Txt, count: u128) -> Result<(), Stop>
    ensures read { Stops (λ _. text.new) result input.new (with_front text.old (times code_at count input.old)) }
    ensures bytes { input.new.bytes ≡ input.old.bytes }
    ensures phase { input.new.place % 8 ≡ input.old.place % 8 }
{
    let mut left = count;
    while left > 0 {
        left -= u128::from(add_short(input, text, left)?);
        if left > 0 {
            left -= add_codes(input, text, left)?;
        }
    }
    Ok(())
}

/// Adds characters by their code points, as [`add_others`] does, and answers whether they were added. The
/// place is anything where not.
#[cold]
#[inline(never)]
fn others_added(input: &mut BitIn<'_>, text: &mut Txt, count: u64) -> bool
    ensures read { OnTrue result (with_front text.old (times code_at count input.old) ≡ Ok (text.new, input.new)) }
    ensures bytes { input.new.bytes ≡ input.old.bytes }
    ensures phase { input.new.place % 8 ≡ input.old.place % 8 }
{
    match add_others(input, text, u128::from(count)) {
        Ok(()) => true,
        Err(_) => false,
    }
}

/// How many octets of few plain characters are laid side by side: they, and a word behind them.
const FEW: usize = 40;

/// How many octets of plain characters are laid side by side before they are added to a text.
const PLAIN: usize = 64;

/// Adds characters of an octet each from the place on, and answers how many: at most so many. After an `Err`
/// the place is anything.
#[inline(always)]
fn add_run(input: &mut BitIn<'_>, text: &mut Txt, most: u64) -> Result<u64, AllocError>
    ensures few { IfOk result (λ n. n ≤ most) }
    ensures read { IfOk result (λ n. with_front text.new (times code_at (most - n) input.new) ≡ with_front text.old (times code_at most input.old)) }
    ensures bytes { input.new.bytes ≡ input.old.bytes }
    ensures phase { input.new.place % 8 ≡ input.old.place % 8 }
{
    let mut left = most;
    let mut room = [0u8; PLAIN];
    let mut run = PLAIN as u64;
    while run > PLAIN as u64 - 8 && left > 0 {
        run = lay_run(input, &mut room, 0, left);
        text.push_ascii(&room[..run as usize])?;
        left -= run;
    }
    Ok(most - left)
}

/// Adds so many characters by their code points to an empty text, and answers whether they were added. The
/// place is anything where not.
#[inline(always)]
fn codes_added(input: &mut BitIn<'_>, text: &mut Txt, count: u64) -> bool
    requires empty { text.old ≡ [] }
    ensures read { OnTrue result (times code_at count input.old ≡ Ok (text.new, input.new)) }
    ensures bytes { input.new.bytes ≡ input.old.bytes }
    ensures phase { input.new.place % 8 ≡ input.old.place % 8 }
{
    // A text is kept as bytes of UTF-8, two or more for a character that is not ASCII. With a sixteenth more
    // than an octet each, a text with a few of them does not grow, which would copy it. The room is not given
    // back: the text keeps it.
    let room = count.saturating_add(count / 16);
    let Ok(()) = text.reserve(room as usize) else {
        return false;
    };
    let Ok(run) = add_run(input, text, count) else {
        return false;
    };
    if run == count {
        return true;
    }
    others_added(input, text, count - run)
}

/// So many plain characters from the place on, at most as many as a text keeps within itself. None where there are fewer, or
/// where fewer bits are left than a word behind them has; the place is then anything.
#[inline(always)]
fn few_chars(alloc: Global, input: &mut BitIn<'_>, count: u64) -> Option<Txt>
    requires few { count ≤ 30 }
    ensures read { IfSome result (λ t. times code_at count input.old ≡ Ok (t, input.new)) }
    ensures bytes { input.new.bytes ≡ input.old.bytes }
    ensures phase { input.new.place % 8 ≡ input.old.place % 8 }
{
    let mut room = [0u8; FEW];
    let run = lay_run(input, &mut room, 0, count);
    if run < count {
        return None;
    }
    match Txt::of_front(alloc, &room, run as usize) {
        Ok(text) => Some(text),
        Err(_) => None,
    }
}

/// Charges the characters, and reads them by their code points. None where the meter does not take them, where
/// they surely do not fit the bits that are left, or where that way meets a stop of any kind; nothing moves and
/// nothing is charged then.
#[tactic(auto, unfolding(exi_items::specs::Charges::text_charge))]
#[inline(always)]
fn plain_chars(alloc: Global, input: &mut BitIn<'_>, count: u128, meter: &mut Meter) -> Option<Txt>
    ensures read { IfSome result (λ t. times code_at count input.old ≡ Ok (t, input.new)) }
    ensures charge { IfSome result (λ _. text_charge count input.old.place meter.old ≡ Ok meter.new) }
    ensures none { IfNone result ((input.new ≡ input.old) × (meter.new ≡ meter.old)) }
    ensures bytes { input.new.bytes ≡ input.old.bytes }
    ensures phase { input.new.place % 8 ≡ input.old.place % 8 }
{
    let before = *meter;
    if count > u128::from(input.left() / 8) || !meter.text(count) {
        return None;
    }
    let start = input.at();
    if count <= 30 {
        if let Some(text) = few_chars(alloc, input, count as u64) {
            return Some(text);
        }
        input.go_to_bit(start);
    }
    let mut text = Txt::new(alloc);
    if codes_added(input, &mut text, count as u64) {
        return Some(text);
    }
    input.go_to_bit(start);
    *meter = before;
    None
}

/// Adds so many characters by their code points to an empty text. After an `Err` the place is anything.
fn codes(input: &mut BitIn<'_>, text: &mut Txt, count: u128) -> Result<(), Stop>
    requires empty { text.old ≡ [] }
    ensures read { Stops (λ _. text.new) result input.new (times code_at count input.old) }
    ensures bytes { input.new.bytes ≡ input.old.bytes }
    ensures phase { input.new.place % 8 ≡ input.old.place % 8 }
{
    text.reserve(room_for(input, count, 8))?;
    add_others(input, text, count)
}

/// Adds so many characters by their places in the set to an empty text. After an `Err` the place is
/// anything.
fn characters(
    input: &mut BitIn<'_>,
    text: &mut Txt,
    count: u128,
    set: &Set<'_>,
    align: Align,
) -> Result<(), Stop>
    requires aligned { IsAligned align input.old }
    requires empty { text.old ≡ [] }
    ensures read { Stops (λ _. text.new) result input.new (times (in_set_at set.now align) count input.old) }
    ensures bytes { input.new.bytes ≡ input.old.bytes }
    ensures aligned { IsAligned align input.new }
{
    text.reserve(room_for(input, count, set.width()))?;
    for _ in 0..count {
        let c = in_set(input, set, align)?;
        text.push(c)?;
    }
    Ok(())
}

/// Charges the characters, and adds them to an empty text. After an `Err` the place is anything.
#[tactic(auto, unfolding(crate::specs::Literals::chars_at))]
fn charged_chars(
    alloc: Global,
    input: &mut BitIn<'_>,
    text: &mut Txt,
    count: u128,
    set: Option<&Alphabet>,
    align: Align,
    meter: &mut Meter,
) -> Result<(), Stop>
    requires aligned { IsAligned align input.old }
    requires empty { text.old ≡ [] }
    ensures read { Charges (λ _. text.new) result input.new meter.new (chars_at (option_copied set.entry) align count (record { spot = input.old; meter = meter.old })) }
    ensures meter { meter.new ≡ after_text meter.old count }
    ensures bytes { input.new.bytes ≡ input.old.bytes }
    ensures aligned { IsAligned align input.new }
{
    charge_text(meter, count, input.at())?;
    let Some(alphabet) = set else {
        return codes(input, text, count);
    };
    if count == 0 {
        return Ok(());
    }
    let set = Set::of(alloc, alphabet)?;
    characters(input, text, count, &set, align)
}

/// Reads the characters as [`read_chars`] does, whatever the way.
#[cold]
#[inline(never)]
fn chars_apart(
    alloc: Global,
    input: &mut BitIn<'_>,
    count: u128,
    set: Option<&Alphabet>,
    align: Align,
    meter: &mut Meter,
) -> Result<Txt, Stop>
    requires aligned { IsAligned align input.old }
    ensures read { Charges (λ t. t) result input.new meter.new (chars_at (option_copied set.entry) align count (record { spot = input.old; meter = meter.old })) }
    ensures place { OnErr result (input.new ≡ input.old) }
    ensures meter { IfErr result (λ stop. meter.new ≡ meter_after stop meter.old (after_text meter.old count)) }
    ensures bytes { input.new.bytes ≡ input.old.bytes }
    ensures aligned { IsAligned align input.new }
{
    let start = input.at();
    let before = *meter;
    let mut text = Txt::new(alloc);
    match charged_chars(alloc, input, &mut text, count, set, align, meter) {
        Ok(()) => Ok(text),
        Err(stop) => {
            input.go_to_bit(start);
            if let Stop::Memory = stop {
                *meter = before;
            }
            Err(stop)
        }
    }
}

/// Reads the characters of a string whose length is `count`, with a set of characters or without
/// (EXI 1.0, sections 7.1.10 and 7.1.10.1). Their number is charged to the meter before the first.
/// Under [`Align::Bytes`] the place has to be a whole byte.
///
/// # Errors
///
/// The place is then as before. Where memory ran out the meter is too; after a fault the charge stays.
///
/// - `TextLimit` at the first character where the characters would pass the limit; nothing is charged.
/// - `Short` and `TooWide` at the number or the code point that is so.
/// - `BadChar` at the first bit of a code point that is no XML character, or of a number above that of
///   the set's characters.
/// - `Memory` where memory is refused.
#[tactic(auto, unfolding(crate::specs::Literals::chars_at))]
pub fn read_chars(
    alloc: Global,
    input: &mut BitIn<'_>,
    count: u128,
    set: Option<&Alphabet>,
    align: Align,
    meter: &mut Meter,
) -> Result<Txt, Stop>
    requires aligned { IsAligned align input.old }
    ensures read { Charges (λ t. t) result input.new meter.new (chars_at (option_copied set.entry) align count (record { spot = input.old; meter = meter.old })) }
    ensures place { OnErr result (input.new ≡ input.old) }
    ensures meter { IfErr result (λ stop. meter.new ≡ meter_after stop meter.old (after_text meter.old count)) }
    ensures bytes { input.new.bytes ≡ input.old.bytes }
    ensures aligned { IsAligned align input.new }
{
    if let None = set {
        if let Some(text) = plain_chars(alloc, input, count, meter) {
            return Ok(text);
        }
    }
    match chars_apart(alloc, input, count, set, align, meter) {
        Ok(text) => Ok(text),
        Err(stop) => Err(stop),
    }
}
