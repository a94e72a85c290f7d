//! Octets from their text and back.

ghost use Rattle.std.specs.Prelude.{◌≡◌, ◌++◌, Some, IfOk, OnOk, string_bytes, option_map};
ghost use Rattle.exi_lexical.specs.Binaries.{base64_octets, base64_text, hex_octets, hex_text};
ghost use Rattle.exi_lexical.specs.Spaces.{has_no_space, squeezed};

use crate::spaces::is_white;
use base64::DecodeAllocError;
use base64::engine::general_purpose::STANDARD;
use exi_names::Octets;
use hex::FromHexError;
use std::alloc::{AllocError, Global};

/// The octets of pairs of hex digits of either case, if the text is such.
pub fn hex_value(alloc: Global, text: &[u8]) -> Result<Option<Octets>, AllocError>
    ensures { IfOk result (λ octets. octets ≡ hex_octets text.now) }
{
    match hex::decode(alloc, text) {
        Ok(octets) => Ok(Some(Octets::from_vec(octets))),
        Err(error) => match error {
            FromHexError::OutOfMemory => Err(AllocError),
            _ => Ok(None),
        },
    }
}

/// The octets of base64 digits without white space, if the text is such.
fn digits_value(alloc: Global, digits: &[u8]) -> Result<Option<Octets>, AllocError>
    ensures { IfOk result (λ octets. octets ≡ base64_octets digits.now) }
{
    match STANDARD.decode(alloc, digits) {
        Ok(octets) => Ok(Some(Octets::from_vec(octets))),
        Err(error) => match error {
            DecodeAllocError::OutOfMemory => Err(AllocError),
            _ => Ok(None),
        },
    }
}

/// Whether no byte is white space.
fn is_solid(text: &[u8]) -> bool
    ensures { result ≡ has_no_space text.now }
{
    for byte in text {
        if is_white(*byte) {
            return false;
        }
    }
    true
}

/// The bytes that are no white space.
fn squeeze(alloc: Global, text: &[u8]) -> Result<Vec<u8>, AllocError>
    ensures { IfOk result (λ digits. digits.items ≡ squeezed text.now) }
{
    text.iter()
        .copied()
        .filter(|byte| !is_white(*byte))
        .collect(alloc)
}

/// The octets of base64 digits, white space dropped, if the text is such. Only a text with white space is copied.
pub fn base64_value(alloc: Global, text: &[u8]) -> Result<Option<Octets>, AllocError>
    ensures { IfOk result (λ octets. octets ≡ base64_octets (squeezed text.now)) }
{
    if is_solid(text) {
        return digits_value(alloc, text);
    }
    let digits = squeeze(alloc, text)?;
    digits_value(alloc, digits.as_slice())
}

/// Puts two hex digits in upper case for each octet at the end.
///
/// # Errors
///
/// `AllocError` where memory is refused.
pub fn put_hex(alloc: Global, out: &mut String, octets: &[u8]) -> Result<(), AllocError>
    ensures { OnOk result (string_bytes out.new ≡ string_bytes out.old ++ hex_text octets.now) }
{
    let text = hex::encode_upper(alloc, octets)?;
    out.push_str(text.as_str())
}

/// Puts base64 digits with their fillers at the end.
///
/// # Errors
///
/// `AllocError` where memory is refused.
pub fn put_base64(out: &mut String, octets: &[u8]) -> Result<(), AllocError>
    ensures { OnOk result (string_bytes out.new ≡ string_bytes out.old ++ base64_text octets.now) }
{
    STANDARD.encode_string(octets, out)
}
