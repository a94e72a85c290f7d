//! The most frequent lines, read straight: no search for the line's end, no copy but that of the texts.

ghost use Rattle.std.specs.Prelude.{◌≡◌, ◌∷◌, ◌++◌, IfOk, IfSome, IsTrue, codes};
ghost use Rattle.exi_names.specs.Seen.{text};
ghost use Rattle.exi_evtext.specs.Lines.{name_words, value_words};
ghost use Rattle.exi_evtext.specs.Plain.{IsLine, IsPlain, plain_name};

use crate::cursor::behind_mark;
use crate::front::Front;
use crate::read_value::inside_text;
use crate::room::EventRoom;
use crate::run::plain_width;
use std::alloc::AllocError;

/// What stands behind three bytes, where the bytes begin with them.
#[inline(always)]
fn behind_three(bytes: &[u8], first: u8, second: u8, third: u8) -> Option<&[u8]>
    ensures { IfSome result (λ behind. bytes.now ≡ first ∷ second ∷ third ∷ behind.now) }
{
    if bytes.len() >= 3 && bytes[0] == first && bytes[1] == second && bytes[2] == third {
        Some(&bytes[3..])
    } else {
        None
    }
}

/// A plain text behind the quote that opens it, and what stands behind the quote that closes it.
#[inline(always)]
fn plain_opened(bytes: &[u8]) -> Option<(Front<'_>, &[u8])>
    ensures plain { IfSome result (λ found. IsPlain found.0) }
    ensures parts { IfSome result (λ found. bytes.now ≡ found.0 ++ 34 ∷ found.1.now) }
{
    let count = plain_width(bytes);
    let (_, rest) = bytes.split_at(count);
    let behind = behind_mark(b'"', rest)?;
    Some((Front::new(bytes, count), behind))
}

/// URI and local name behind a word, and what stands behind them.
#[inline(always)]
fn plain_name(bytes: &[u8]) -> Option<(Front<'_>, Front<'_>, &[u8])>
    ensures plain { IfSome result (λ found. IsPlain found.0 × IsPlain found.1) }
    ensures parts { IfSome result (λ found. bytes.now ≡ name_words (plain_name found.0 found.1) ++ found.2.now) }
{
    let inside = behind_mark(b'"', bytes)?;
    let (uri, rest) = plain_opened(inside)?;
    let inside = behind_mark(b'"', behind_mark(b' ', rest)?)?;
    let (local, rest) = plain_opened(inside)?;
    Some((uri, local, rest))
}

/// A plain text that ends the line, behind the quote that opens it, and what stands behind the line.
#[inline(always)]
fn plain_last(bytes: &[u8]) -> Option<(Front<'_>, &[u8])>
    ensures plain { IfSome result (λ found. IsPlain found.0) }
    ensures parts { IfSome result (λ found. bytes.now ≡ found.0 ++ 34 ∷ 10 ∷ found.1.now) }
{
    let (text, rest) = plain_opened(bytes)?;
    Some((text, behind_mark(b'\n', rest)?))
}

/// A text as a value that ends the line, and what stands behind the line.
#[inline(always)]
fn plain_value(bytes: &[u8]) -> Option<(Front<'_>, &[u8])>
    ensures plain { IfSome result (λ found. IsPlain found.0) }
    ensures parts { IfSome result (λ found. bytes.now ≡ value_words (text found.0) ++ 10 ∷ found.1.now) }
{
    plain_last(inside_text(bytes)?)
}

/// What stands behind the line, where the room holds its event.
#[inline(always)]
fn if_held(held: bool, behind: &[u8]) -> Option<&[u8]>
    ensures { IfSome result (λ b. IsTrue held × (b.now ≡ behind.now)) }
{
    if held { Some(behind) } else { None }
}

/// The start of an element.
#[inline(always)]
fn start<'a>(bytes: &'a [u8], room: &mut EventRoom) -> Result<Option<&'a [u8]>, AllocError>
    ensures { IfOk result (λ found. IfSome found (λ behind. IsLine (83 ∷ 69 ∷ 32 ∷ bytes.now) room.new behind.now)) }
{
    let Some((uri, local, rest)) = plain_name(bytes) else {
        return Ok(None);
    };
    let Some(behind) = behind_mark(b'\n', rest) else {
        return Ok(None);
    };
    Ok(if_held(room.hold_start(&uri, &local)?, behind))
}

/// An attribute with a text.
#[inline(always)]
fn attribute<'a>(bytes: &'a [u8], room: &mut EventRoom) -> Result<Option<&'a [u8]>, AllocError>
    ensures { IfOk result (λ found. IfSome found (λ behind. IsLine (65 ∷ 84 ∷ 32 ∷ bytes.now) room.new behind.now)) }
{
    let Some((uri, local, rest)) = plain_name(bytes) else {
        return Ok(None);
    };
    let Some(rest) = behind_mark(b' ', rest) else {
        return Ok(None);
    };
    let Some((text, behind)) = plain_value(rest) else {
        return Ok(None);
    };
    Ok(if_held(room.hold_attribute(&uri, &local, &text)?, behind))
}

/// Characters that are a text of any bytes, behind the quote that opens it.
#[inline(never)]
fn any_text<'a>(bytes: &'a [u8], room: &mut EventRoom) -> Result<Option<&'a [u8]>, AllocError>
    ensures { IfOk result (λ found. IfSome found (λ behind. IsLine (codes "CH text \"" ++ bytes.now) room.new behind.now)) }
{
    let Some(rest) = room.hold_opened(bytes)? else {
        return Ok(None);
    };
    Ok(behind_mark(b'\n', rest))
}

/// Characters that are a text; most often it is plain.
#[inline(always)]
fn characters<'a>(bytes: &'a [u8], room: &mut EventRoom) -> Result<Option<&'a [u8]>, AllocError>
    ensures { IfOk result (λ found. IfSome found (λ behind. IsLine (67 ∷ 72 ∷ 32 ∷ bytes.now) room.new behind.now)) }
{
    let Some(inside) = inside_text(bytes) else {
        return Ok(None);
    };
    let Some((text, behind)) = plain_last(inside) else {
        return any_text(inside, room);
    };
    Ok(if_held(room.hold_characters(&text)?, behind))
}

/// Reads the line in front into a room, where it is one of the most frequent and its texts are plain, but for that of
/// characters; the answer is what stands behind it.
#[inline(always)]
pub fn read_frequent<'a>(
    bytes: &'a [u8],
    room: &mut EventRoom,
) -> Result<Option<&'a [u8]>, AllocError>
    ensures { IfOk result (λ found. IfSome found (λ behind. IsLine bytes.now room.new behind.now)) }
{
    if let Some(rest) = behind_three(bytes, b'S', b'E', b' ') {
        start(rest, room)
    } else if let Some(behind) = behind_three(bytes, b'E', b'E', b'\n') {
        Ok(if_held(room.hold_end(), behind))
    } else if let Some(rest) = behind_three(bytes, b'C', b'H', b' ') {
        characters(rest, room)
    } else if let Some(rest) = behind_three(bytes, b'A', b'T', b' ') {
        attribute(rest, room)
    } else {
        Ok(None)
    }
}
