//! The cases that write.

use exi_bits::Align;
use exi_cases::fields::{align_of, set_of, text_of, zeros};
use exi_cases::show;
use exi_names::{Alphabet, Txt};
use exi_text::{is_writable, write_chars};
use std::alloc::{AllocError, Global};

/// The answer to a case of this file.
pub fn answer(alloc: Global, fields: &[&str]) -> Result<Option<String>, AllocError> {
    match fields {
        ["wbit", align, width, skip, value] => number(alloc, align, width, skip, value),
        ["wuint", skip, value] => unsigned(alloc, skip, value),
        ["wchars", set, align, skip, text] => chars(alloc, set, align, skip, text),
        _ => Ok(None),
    }
}

/// `wbit ALIGN WIDTH SKIP NUMBER`
fn number(
    alloc: Global,
    align: &str,
    width: &str,
    skip: &str,
    number: &str,
) -> Result<Option<String>, AllocError> {
    let (Some(align), Ok(width)) = (align_of(align), width.parse::<u32>()) else {
        return Ok(None);
    };
    let (Ok(skip), Ok(number)) = (skip.parse::<u64>(), number.parse::<u64>()) else {
        return Ok(None);
    };
    if width > 64 {
        return Ok(None);
    }
    // In whole bytes a number is spelled alike for each width that takes these bytes, so also where it has
    // more bits than its width.
    let width = match align {
        Align::Bits => width,
        Align::Bytes => (width + 7) / 8 * 8,
    };
    if u128::from(number) >= 1 << width {
        return Ok(None);
    }
    let Some(mut out) = zeros(alloc, align, skip)? else {
        return Ok(None);
    };
    out.put(number, width, align)?;
    show::bits(alloc, &out)
}

/// `wuint SKIP NUMBER`
fn unsigned(alloc: Global, skip: &str, number: &str) -> Result<Option<String>, AllocError> {
    let (Ok(skip), Ok(number)) = (skip.parse::<u64>(), number.parse::<u128>()) else {
        return Ok(None);
    };
    let Some(mut out) = zeros(alloc, Align::Bits, skip)? else {
        return Ok(None);
    };
    out.unsigned(number)?;
    show::bits(alloc, &out)
}

/// `wchars SET ALIGN SKIP TEXT`
fn chars(
    alloc: Global,
    set: &str,
    align: &str,
    skip: &str,
    text: &str,
) -> Result<Option<String>, AllocError> {
    let (Some(align), Ok(skip)) = (align_of(align), skip.parse::<u64>()) else {
        return Ok(None);
    };
    match set_of(alloc, set)? {
        Some(set) => chars_of(alloc, set.as_ref(), align, skip, text),
        None => Ok(None),
    }
}

fn chars_of(
    alloc: Global,
    set: Option<&Alphabet>,
    align: Align,
    skip: u64,
    text: &str,
) -> Result<Option<String>, AllocError> {
    match text_of(alloc, text)? {
        Some(text) => write(alloc, set, align, skip, &text),
        None => Ok(None),
    }
}

fn write(
    alloc: Global,
    set: Option<&Alphabet>,
    align: Align,
    skip: u64,
    text: &Txt,
) -> Result<Option<String>, AllocError> {
    if !is_writable(text) {
        return Ok(None);
    }
    let Some(mut out) = zeros(alloc, align, skip)? else {
        return Ok(None);
    };
    write_chars(alloc, &mut out, text, set, align)?;
    show::bits(alloc, &out)
}
