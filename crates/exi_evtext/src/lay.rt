//! Lines of frequent events, laid in a room of bytes: no copy needs a test of capacity, and none asks for memory.

ghost use Rattle.std.specs.Prelude.{◌≡◌, ◌≤◌, ◌<◌, ◌+◌, ◌*◌, ◌++◌, ◌∷◌, [], IfSome, true, length, take, codes, encode_utf8_all};
ghost use Rattle.std.specs.List.{flat_map};
ghost use Rattle.exi_names.specs.Characters.{are_plain};
ghost use Rattle.exi_names.specs.Shown.{named, shows};
ghost use Rattle.exi_evtext.specs.Lines.{escaped, line_of, name_words, quoted};

use crate::lay_value::lay_typed;
use crate::quote::{escape, is_plain, run_end};
use exi_names::{EventRef, NameRef, Txt, ValRef};
use std::simd::prelude::*;

/// How many bytes are kept free behind a text for what follows in its line.
const WIDE: usize = 16;

/// How many bytes are kept free for a text of few: all of the room in which it lies is laid.
const NEAR: usize = 32;

/// More bytes than the line of a frequent event takes whose name has no prefix and whose texts have few bytes each.
const LINE: usize = 256;

/// The reach of a line with any texts; [`NEAR`] is that of one whose texts have few bytes. Each reach has functions of its own,
/// which are called once and so taken in line.
const FAR: usize = 0;

/// A byte at a place of a room; the answer is the place behind it.
#[inline(always)]
pub fn lay_byte(room: &mut [u8], at: usize, byte: u8) -> usize
    requires { at < length room.old }
    ensures behind { result ≡ at + 1 }
    ensures laid { take result room.new ≡ take at room.old ++ byte ∷ [] }
    ensures len { length room.new ≡ length room.old }
{
    room[at] = byte;
    at + 1
}

/// Bytes at a place of a room.
#[inline(always)]
fn lay_bytes(room: &mut [u8], at: usize, bytes: &[u8]) -> usize
    requires { at + length bytes.now ≤ length room.old }
    ensures behind { result ≡ at + length bytes.now }
    ensures laid { take result room.new ≡ take at room.old ++ bytes.now }
    ensures len { length room.new ≡ length room.old }
{
    let end = at + bytes.len();
    room[at..end].copy_from_slice(bytes);
    end
}

/// The first bytes, `N` of them, at a place of a room: one load and one store.
#[inline(always)]
fn lay_front<const N: usize>(room: &mut [u8], at: usize, bytes: &[u8]) -> usize
    requires { (N ≤ length bytes.now) × (at + N ≤ length room.old) }
    ensures behind { result ≡ at + N }
    ensures laid { take result room.new ≡ take at room.old ++ take N bytes.now }
    ensures len { length room.new ≡ length room.old }
{
    Simd::<u8, N>::from_slice(bytes).copy_to_slice(&mut room[at..]);
    at + N
}

/// Bytes at a place of a room by their two ends, which together hold all of them.
#[inline(always)]
fn lay_ends<const N: usize>(room: &mut [u8], at: usize, bytes: &[u8]) -> usize
    requires room { at + length bytes.now ≤ length room.old }
    requires ends { (N ≤ length bytes.now) × (length bytes.now ≤ 2 * N) }
    ensures behind { result ≡ at + length bytes.now }
    ensures laid { take result room.new ≡ take at room.old ++ bytes.now }
    ensures len { length room.new ≡ length room.old }
{
    let back = bytes.len() - N;
    lay_front::<N>(room, at, bytes);
    lay_front::<N>(room, at + back, &bytes[back..])
}

/// Bytes at a place of a room, few at a time more quickly.
#[inline(always)]
pub fn lay_run(room: &mut [u8], at: usize, bytes: &[u8]) -> usize
    requires { at + length bytes.now ≤ length room.old }
    ensures behind { result ≡ at + length bytes.now }
    ensures laid { take result room.new ≡ take at room.old ++ bytes.now }
    ensures len { length room.new ≡ length room.old }
{
    match bytes.len() {
        8..=16 => lay_ends::<8>(room, at, bytes),
        17..=32 => lay_ends::<16>(room, at, bytes),
        4..=7 => lay_ends::<4>(room, at, bytes),
        2..=3 => lay_ends::<2>(room, at, bytes),
        1 => lay_ends::<1>(room, at, bytes),
        0 => at,
        _ => lay_bytes(room, at, bytes),
    }
}

/// The text of so many bytes in front of a room of its own, which are plain: all of that room is laid at once.
#[inline(always)]
fn lay_near(room: &mut [u8], at: usize, bytes: &[u8], count: usize) -> usize
    requires room { at + NEAR ≤ length room.old }
    requires bytes { length bytes.now ≡ 30 }
    requires few { count ≤ 30 }
    requires plain { are_plain (take count bytes.now) ≡ true }
    ensures len { length room.new ≡ length room.old }
    ensures within { result ≤ at + NEAR }
    ensures laid { take result room.new ≡ take at room.old ++ flat_map escaped (take count bytes.now) }
{
    lay_ends::<WIDE>(room, at, bytes);
    at + count
}

/// What stands for a byte between quotes.
#[inline(always)]
fn lay_escaped(room: &mut [u8], at: usize, byte: u8) -> usize
    requires { at + 2 ≤ length room.old }
    ensures len { length room.new ≡ length room.old }
    ensures within { (at ≤ result) × (result ≤ at + 2) }
    ensures laid { take result room.new ≡ take at room.old ++ escaped byte }
{
    match escape(byte) {
        Some(text) => lay_bytes(room, at, text.as_bytes()),
        None => lay_byte(room, at, byte),
    }
}

/// Bytes between quotes, those that stand for themselves in runs.
#[inline(never)]
fn lay_runs(room: &mut [u8], at: usize, bytes: &[u8]) -> usize
    requires { at + 2 * length bytes.now ≤ length room.old }
    ensures len { length room.new ≡ length room.old }
    ensures within { result ≤ at + 2 * length bytes.now }
    ensures laid { take result room.new ≡ take at room.old ++ flat_map escaped bytes.now }
{
    let mut end = at;
    let mut done = 0;
    while done < bytes.len() {
        let stop = run_end(bytes, done);
        end = lay_bytes(room, end, &bytes[done..stop]);
        if stop == bytes.len() {
            return end;
        }
        end = lay_escaped(room, end, bytes[stop]);
        done = stop + 1;
    }
    end
}

/// A text of any bytes, where there is room for twice as many and for more.
#[inline(never)]
fn lay_far(room: &mut [u8], at: usize, text: &Txt) -> Option<usize>
    requires { at ≤ length room.old }
    ensures len { length room.new ≡ length room.old }
    ensures more { IfSome result (λ end. end + WIDE ≤ length room.new) }
    ensures laid { IfSome result (λ end. take end room.new ≡ take at room.old ++ flat_map escaped (encode_utf8_all text.now)) }
{
    let bytes = text.as_str().as_bytes();
    let left = room.len() - at;
    if left < WIDE || bytes.len() > (left - WIDE) / 2 {
        return None;
    }
    if is_plain(bytes) {
        return Some(lay_run(room, at, bytes));
    }
    Some(lay_runs(room, at, bytes))
}

/// A text, where there is room for it and for more. One of few bytes has them in a room of its own.
#[inline(always)]
fn lay_text<const REACH: usize>(room: &mut [u8], at: usize, text: &Txt) -> Option<usize>
    requires { at ≤ length room.old }
    ensures len { length room.new ≡ length room.old }
    ensures more { IfSome result (λ end. end + WIDE ≤ length room.new) }
    ensures laid { IfSome result (λ end. take end room.new ≡ take at room.old ++ flat_map escaped (encode_utf8_all text.now)) }
{
    if REACH == NEAR {
        if room.len() - at < NEAR + WIDE {
            return None;
        }
        let (bytes, count) = text.room()?;
        Some(lay_near(room, at, bytes, count))
    } else {
        lay_far(room, at, text)
    }
}

/// Three bytes at a place of a room.
#[inline(always)]
pub fn lay_three(room: &mut [u8], at: usize, first: u8, second: u8, third: u8) -> usize
    requires { at + 3 ≤ length room.old }
    ensures behind { result ≡ at + 3 }
    ensures laid { take result room.new ≡ take at room.old ++ first ∷ second ∷ third ∷ [] }
    ensures len { length room.new ≡ length room.old }
{
    let at = lay_byte(room, at, first);
    let at = lay_byte(room, at, second);
    lay_byte(room, at, third)
}

/// The quote that closes the last text, and the line feed.
#[inline(always)]
pub fn lay_end(room: &mut [u8], at: usize) -> usize
    requires { at + 2 ≤ length room.old }
    ensures behind { result ≡ at + 2 }
    ensures laid { take result room.new ≡ take at room.old ++ 34 ∷ 10 ∷ [] }
    ensures len { length room.new ≡ length room.old }
{
    let at = lay_byte(room, at, b'"');
    lay_byte(room, at, b'\n')
}

/// A text as a value, with the line's end.
#[inline(always)]
fn lay_value<const REACH: usize>(room: &mut [u8], at: usize, text: &Txt) -> Option<usize>
    requires { at + 6 ≤ length room.old }
    ensures len { length room.new ≡ length room.old }
    ensures more { IfSome result (λ end. end ≤ length room.new) }
    ensures laid { IfSome result (λ end. take end room.new ≡ take at room.old ++ (codes "text " ++ quoted text.now ++ 10 ∷ [])) }
{
    let at = lay_three(room, at, b't', b'e', b'x');
    let at = lay_three(room, at, b't', b' ', b'"');
    let end = lay_text::<REACH>(room, at, text)?;
    Some(lay_end(room, end))
}

/// A prefix behind a local name, but for the quote that closes it. Few names have one, so it stands apart.
#[inline(never)]
fn lay_prefix(room: &mut [u8], at: usize, prefix: &Txt) -> Option<usize>
    requires { at + WIDE ≤ length room.old }
    ensures len { length room.new ≡ length room.old }
    ensures more { IfSome result (λ end. end + WIDE ≤ length room.new) }
    ensures laid { IfSome result (λ end. take end room.new ≡ take at room.old ++ (34 ∷ 32 ∷ 34 ∷ flat_map escaped (encode_utf8_all prefix.now))) }
{
    let at = lay_three(room, at, b'"', b' ', b'"');
    lay_text::<FAR>(room, at, prefix)
}

/// A name behind a word, but for the quote that closes it.
#[inline(always)]
fn lay_name<const REACH: usize>(
    room: &mut [u8],
    first: u8,
    second: u8,
    name: &NameRef<'_>,
) -> Option<usize>
    requires { WIDE ≤ length room.old }
    ensures len { length room.new ≡ length room.old }
    ensures more { IfSome result (λ end. end + WIDE ≤ length room.new) }
    ensures laid { IfSome result (λ end. take end room.new ++ 34 ∷ [] ≡ first ∷ second ∷ 32 ∷ name_words (named name.now)) }
{
    let at = lay_three(room, 0, first, second, b' ');
    let at = lay_byte(room, at, b'"');
    let end = lay_text::<REACH>(room, at, name.uri)?;
    let at = lay_three(room, end, b'"', b' ', b'"');
    let end = lay_text::<REACH>(room, at, name.local)?;
    match name.prefix {
        Some(prefix) => lay_prefix(room, end, prefix),
        None => Some(end),
    }
}

/// The line of an element's beginning.
#[inline(always)]
fn lay_start<const REACH: usize>(room: &mut [u8], name: &NameRef<'_>) -> Option<usize>
    requires { WIDE ≤ length room.old }
    ensures len { length room.new ≡ length room.old }
    ensures more { IfSome result (λ end. end ≤ length room.new) }
    ensures laid { IfSome result (λ end. take end room.new ≡ codes "SE " ++ name_words (named name.now) ++ 10 ∷ []) }
{
    let end = lay_name::<REACH>(room, b'S', b'E', name)?;
    Some(lay_end(room, end))
}

/// The line of an attribute with a text.
#[inline(always)]
fn lay_attribute<const REACH: usize>(
    room: &mut [u8],
    name: &NameRef<'_>,
    text: &Txt,
) -> Option<usize>
    requires { WIDE ≤ length room.old }
    ensures len { length room.new ≡ length room.old }
    ensures more { IfSome result (λ end. end ≤ length room.new) }
    ensures laid { IfSome result (λ end. take end room.new ≡ codes "AT " ++ name_words (named name.now) ++ 32 ∷ (codes "text " ++ quoted text.now) ++ 10 ∷ []) }
{
    let end = lay_name::<REACH>(room, b'A', b'T', name)?;
    let at = lay_byte(room, end, b'"');
    let at = lay_byte(room, at, b' ');
    lay_value::<REACH>(room, at, text)
}

/// The line of characters.
#[inline(always)]
fn lay_characters<const REACH: usize>(room: &mut [u8], text: &Txt) -> Option<usize>
    requires { WIDE ≤ length room.old }
    ensures len { length room.new ≡ length room.old }
    ensures more { IfSome result (λ end. end ≤ length room.new) }
    ensures laid { IfSome result (λ end. take end room.new ≡ codes "CH text " ++ quoted text.now ++ 10 ∷ []) }
{
    let at = lay_three(room, 0, b'C', b'H', b' ');
    lay_value::<REACH>(room, at, text)
}

/// The line of a frequent event whose texts are of this reach.
#[inline(always)]
#[tactic(auto, unfolding(crate::specs::Lines::line_of))]
fn lay_frequent<const REACH: usize>(room: &mut [u8], event: &EventRef<'_>) -> Option<usize>
    requires { WIDE ≤ length room.old }
    ensures len { length room.new ≡ length room.old }
    ensures within { IfSome result (λ end. end ≤ length room.new) }
    ensures line { IfSome result (λ end. take end room.new ≡ line_of (shows event.now)) }
{
    match event {
        EventRef::Se(name) => lay_start::<REACH>(room, name),
        EventRef::Ee => Some(lay_three(room, 0, b'E', b'E', b'\n')),
        EventRef::At(name, ValRef::Text(text)) => lay_attribute::<REACH>(room, name, text),
        EventRef::Ch(ValRef::Text(text)) => lay_characters::<REACH>(room, text),
        EventRef::Sd
        | EventRef::Ed
        | EventRef::At(_, ValRef::Any(_))
        | EventRef::Ch(ValRef::Any(_))
        | EventRef::Ns { .. }
        | EventRef::Sc { .. }
        | EventRef::Cm(_)
        | EventRef::Pi { .. }
        | EventRef::Dt { .. }
        | EventRef::Er(_) => None,
    }
}

/// Lays the line of an event at the front of a room, and answers where it ends. There is none where the room is too small,
/// or the event is none of the most frequent; what the room then holds is not told. A text or octets want room for twice
/// their bytes and some more, as if each took two in the line: where there is less there is no answer, even if the line
/// would fit.
#[inline(never)]
#[tactic(auto, unfolding(crate::specs::Lines::line_of))]
pub fn lay_event(room: &mut [u8], event: &EventRef<'_>) -> Option<usize>
    ensures len { length room.new ≡ length room.old }
    ensures within { IfSome result (λ end. end ≤ length room.new) }
    ensures line { IfSome result (λ end. take end room.new ≡ line_of (shows event.now)) }
{
    if room.len() < WIDE {
        return None;
    }
    if let EventRef::Ch(ValRef::Any(value)) = event {
        return lay_typed(room, value);
    }
    lay_frequent::<FAR>(room, event)
}

/// Lays the line of an event at the front of a room of 256 bytes or more, as [`lay_event`] does, where each of its texts but a
/// prefix lies within itself ([`Txt::room`]), so that it has at most 30 bytes, none of them below 32 or escaped. There is none for
/// any other.
#[inline(always)]
#[tactic(auto, unfolding(crate::specs::Lines::line_of))]
pub fn lay_short(room: &mut [u8], event: &EventRef<'_>) -> Option<usize>
    ensures len { length room.new ≡ length room.old }
    ensures within { IfSome result (λ end. end ≤ length room.new) }
    ensures line { IfSome result (λ end. take end room.new ≡ line_of (shows event.now)) }
{
    if room.len() < LINE {
        return None;
    }
    if let EventRef::Ch(ValRef::Any(value)) = event {
        return lay_typed(room, value);
    }
    lay_frequent::<NEAR>(room, event)
}
