//! The fields of a case.

ghost use Rattle.std.specs.Prelude.{◌≡◌, IfOk, IfSome};
ghost use Rattle.exi_bits.specs.Bits.{IsAligned};
ghost use Rattle.exi_bits.specs.Written.{IsWholeBytes};

use exi_bits::{Align, BitIn, BitOut};
use exi_names::{Alphabet, Txt};
use std::alloc::{AllocError, Global};

/// The bytes that hex digits stand for, `-` for none.
pub fn bytes_of(alloc: Global, text: &str) -> Result<Option<Vec<u8>>, AllocError> {
    if text == "-" {
        return Ok(Some(Vec::new(alloc)));
    }
    match hex::decode(alloc, text) {
        Ok(bytes) => Ok(Some(bytes)),
        Err(hex::FromHexError::OutOfMemory) => Err(AllocError),
        Err(_) => Ok(None),
    }
}

/// The text whose UTF-8 the hex digits stand for.
pub fn text_of(alloc: Global, text: &str) -> Result<Option<Txt>, AllocError> {
    let Some(bytes) = bytes_of(alloc, text)? else {
        return Ok(None);
    };
    match std::str::from_utf8(bytes.as_slice()) {
        Ok(text) => Ok(Some(Txt::of(alloc, text)?)),
        Err(_) => Ok(None),
    }
}

/// The set of the text's characters; the empty text is no set.
pub fn set_of(alloc: Global, text: &str) -> Result<Option<Option<Alphabet>>, AllocError> {
    if text == "-" {
        return Ok(Some(None));
    }
    let Some(letters) = text_of(alloc, text)? else {
        return Ok(None);
    };
    match Alphabet::of(letters) {
        Some(set) => Ok(Some(Some(set))),
        None => Ok(None),
    }
}

/// A number, or `-` for none.
pub fn bound_of(text: &str) -> Option<Option<u128>> {
    if text == "-" {
        return Some(None);
    }
    Some(Some(text.parse::<u128>().ok()?))
}

/// `bits` or `bytes`.
pub fn align_of(text: &str) -> Option<Align> {
    match text {
        "bits" => Some(Align::Bits),
        "bytes" => Some(Align::Bytes),
        _ => None,
    }
}

/// Reads the bytes at a bit; nothing where that bit is not there, or is no whole byte under `bytes`.
pub fn open(bytes: &[u8], align: Align, skip: u64) -> Option<BitIn<'_>>
    ensures aligned { IfSome result (λ input. IsAligned align input) }
{
    let whole = skip % 8 == 0 || align == Align::Bits;
    if bytes.len() as u64 > 1 << 32 || skip > bytes.len() as u64 * 8 || !whole {
        return None;
    }
    let mut input = BitIn::new(bytes);
    input.go_to_bit(skip);
    Some(input)
}

/// So many 0 bits; nothing where they are no whole byte under `bytes`.
pub fn zeros(alloc: Global, align: Align, skip: u64) -> Result<Option<BitOut>, AllocError>
    ensures aligned { IfOk result (λ out. IfSome out (λ out. IsWholeBytes align out)) }
{
    let whole = skip % 8 == 0 || align == Align::Bits;
    if !whole {
        return Ok(None);
    }
    let mut out = BitOut::new(alloc);
    for _ in 0..skip / 8 {
        out.put(0, 8, align)?;
    }
    out.put(0, (skip % 8) as u32, align)?;
    Ok(Some(out))
}
