//! A text between quotes, taken into the memory of another. Its bytes are looked at once: those that stand for themselves
//! are told from others, and tested to be UTF-8, sixteen at a time.

ghost use Rattle.std.specs.Prelude.{◌≡◌, ◌+◌, ◌<◌, ◌≤◌, length, slice_index, IfOk, IfSome, Some};
ghost use Rattle.exi_evtext.specs.Plain.{IsTextFront, IsTextIn};
ghost use Rattle.exi_evtext.specs.Parsing.{TakesPart};
ghost use Rattle.exi_evtext.specs.Reading.{opened_at};

use crate::cursor::mark;
use crate::run::{WIDE, plain_lanes};
use exi_names::Txt;
use std::alloc::AllocError;

/// How many bytes the character has that begins at this place with the first byte of three, or 0.
#[inline(never)]
fn three_len(bytes: &[u8], at: usize) -> usize
    requires room { at + 4 ≤ length bytes.now }
    requires first { (224 ≤ slice_index bytes.now at) × (slice_index bytes.now at < 240) }
    ensures { IsTextIn bytes.now at result }
{
    let second = bytes[at + 1];
    let third = bytes[at + 2];
    if second < 0x80 || second >= 0xC0 || third < 0x80 || third >= 0xC0 {
        return 0;
    }
    let high = (bytes[at] as u32 - 0xE0) * 64 + (second as u32 - 0x80);
    if high < 0x20 {
        0
    } else if high < 0x360 {
        3
    } else if high < 0x380 {
        0
    } else {
        3
    }
}

/// The same of four bytes.
#[inline(never)]
fn four_len(bytes: &[u8], at: usize) -> usize
    requires room { at + 4 ≤ length bytes.now }
    requires first { 240 ≤ slice_index bytes.now at }
    ensures { IsTextIn bytes.now at result }
{
    let second = bytes[at + 1];
    let third = bytes[at + 2];
    let fourth = bytes[at + 3];
    if second < 0x80 || second >= 0xC0 || third < 0x80 || third >= 0xC0 {
        return 0;
    }
    if fourth < 0x80 || fourth >= 0xC0 {
        return 0;
    }
    let high = (bytes[at] as u32 - 0xF0) * 64 + (second as u32 - 0x80);
    if high < 0x10 {
        0
    } else if high < 0x110 {
        4
    } else {
        0
    }
}

/// How many bytes the character of several bytes has that begins at this place. There is none, 0, near the end of the bytes.
#[inline(always)]
fn wide_len(bytes: &[u8], at: usize) -> usize
    requires { at ≤ length bytes.now }
    ensures { IsTextIn bytes.now at result }
{
    if bytes.len() - at < 4 {
        return 0;
    }
    let first = bytes[at];
    if first < 0xC2 {
        return 0;
    }
    if first >= 0xF0 {
        return four_len(bytes, at);
    }
    if first >= 0xE0 {
        return three_len(bytes, at);
    }
    let second = bytes[at + 1];
    if second < 0x80 || second >= 0xC0 {
        return 0;
    }
    2
}

/// How many bytes in front are UTF-8 that stands for itself between quotes. It may be fewer than there are: few bytes in
/// front of the end are not counted, and the seldom ones below a space, or 127, end the count.
#[inline(always)]
fn text_width(bytes: &[u8]) -> usize
    ensures { IsTextFront bytes.now result }
{
    let mut done = 0;
    while bytes.len() - done >= WIDE {
        let run = plain_lanes(bytes, done);
        done += run;
        if run < WIDE {
            let wide = wide_len(bytes, done);
            if wide == 0 {
                return done;
            }
            done += wide;
        }
    }
    done
}

/// Puts the bytes in front of some that stand for themselves, and the one that an escape behind them stands for, behind a
/// text. The answer is what stands behind them, and whether more is to come; there may be none.
#[inline(always)]
fn take_part<'a>(text: &mut Txt, bytes: &'a [u8]) -> Result<Option<(bool, &'a [u8])>, AllocError>
    ensures read { IfOk result (λ found. IfSome found (λ part. TakesPart part.0 text.old text.new bytes.now part.1.now)) }
    ensures shorter { IfOk result (λ found. IfSome found (λ part. length part.1.now < length bytes.now)) }
{
    let (part, rest) = bytes.split_at(text_width(bytes));
    text.push_str(unsafe { std::str::from_utf8_unchecked(part) })?;
    let Some((byte, behind)) = mark(rest) else {
        return Ok(None);
    };
    let Some(byte) = byte else {
        return Ok(Some((false, behind)));
    };
    text.push(char::from(byte))?;
    Ok(Some((true, behind)))
}

/// Puts the text that bytes begin with, behind the quote that opens it, in the place of another, in its memory; the answer
/// is what stands behind the quote that closes it. There may be none even where a text stands in front: one of seldom bytes,
/// or near the end.
///
/// # Errors
///
/// `AllocError` where memory is refused.
pub fn refill<'a>(text: &mut Txt, bytes: &'a [u8]) -> Result<Option<&'a [u8]>, AllocError>
    ensures { IfOk result (λ found. IfSome found (λ behind. opened_at bytes.now ≡ Some (text.new, behind.now))) }
{
    text.clear();
    let mut left = bytes;
    let mut more = true;
    while more {
        let Some((open, behind)) = take_part(text, left)? else {
            return Ok(None);
        };
        left = behind;
        more = open;
    }
    Ok(Some(left))
}
