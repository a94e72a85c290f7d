//! What is printed.

ghost use Rattle.std.specs.Prelude.{◌≡◌, true, IfSome};
ghost use Rattle.exi_names.specs.Seen.{seen};
ghost use Rattle.exi_names.specs.Texts.{has_text};

use exi_bits::{BitOut, Fault, Stop};
use exi_lexical::canon;
use exi_names::{Txt, Val, ValList};
use std::alloc::{AllocError, Global};

/// Bytes as hex digits, `-` where there are none.
pub fn hex(alloc: Global, bytes: &[u8]) -> Result<String, AllocError> {
    if bytes.is_empty() {
        return String::from_str(alloc, "-");
    }
    hex::encode(alloc, bytes)
}

/// The bytes and the number of the bits.
pub fn bits(alloc: Global, out: &BitOut) -> Result<Option<String>, AllocError> {
    let bytes = hex(alloc, out.bytes())?;
    let bits = out.bits();
    Ok(Some(format!(in alloc; "{bytes} {bits}")?))
}

/// A fault, by its kind's word and its bit.
pub fn fault(alloc: Global, fault: Fault) -> Result<String, AllocError> {
    let kind = fault.kind.word();
    let bit = fault.bit;
    format!(in alloc; "fault {kind} {bit}")
}

/// A stop; want of memory is handed on.
pub fn stop(alloc: Global, stop: Stop) -> Result<Option<String>, AllocError> {
    match stop {
        Stop::Fault(found) => Ok(Some(fault(alloc, found)?)),
        Stop::Memory => Err(AllocError),
    }
}

/// The word of a value's kind; none for strings, lists and names.
fn word(value: &Val) -> Option<&'static str>
    ensures { IfSome result (λ _. has_text (seen value.now) ≡ true) }
{
    match value {
        Val::Bool { yes: _, digit: _ } => Some("bool"),
        Val::Int(_) => Some("int"),
        Val::Dec {
            minus: _,
            whole: _,
            back: _,
        } => Some("dec"),
        Val::Flo {
            mantissa: _,
            exponent: _,
        } => Some("flo"),
        Val::Mom(_) => Some("mom"),
        Val::Bin { hex, octets: _ } => Some(if *hex { "hex" } else { "base64" }),
        _ => None,
    }
}

/// A string, by the hex of its UTF-8.
fn text(alloc: Global, text: &Txt) -> Result<Option<String>, AllocError> {
    let hex = hex(alloc, text.as_str().as_bytes())?;
    Ok(Some(format!(in alloc; "text {hex}")?))
}

/// A value's kind and canonical text, `-` where that is empty.
fn scalar(alloc: Global, value: &Val) -> Result<Option<String>, AllocError> {
    let Some(word) = word(value) else {
        return Ok(None);
    };
    let text = canon(alloc, value)?;
    let text = text.as_str();
    let text = if text.is_empty() { "-" } else { text };
    Ok(Some(format!(in alloc; "{word} {text}")?))
}

/// A value by its kind: a string's hex, a list's items, any other value's canonical text.
#[cycle(value)]
pub fn value(alloc: Global, found: &Val) -> Result<Option<String>, AllocError> {
    match found {
        Val::Text(found) => text(alloc, found),
        Val::Items(items) => list(alloc, items),
        _ => scalar(alloc, found),
    }
}

/// The number of values, and each of them.
#[cycle(value)]
fn list(alloc: Global, items: &ValList) -> Result<Option<String>, AllocError> {
    let count = items.items.len();
    let mut line = format!(in alloc; "list {count}")?;
    for item in &items.items {
        let Some(shown) = value(alloc, item)? else {
            return Ok(None);
        };
        line.push(' ')?;
        line.push_str(shown.as_str())?;
    }
    Ok(Some(line))
}

/// A value's kind and canonical text, and the place behind it.
pub fn read(alloc: Global, found: &Val, bit: u64) -> Result<Option<String>, AllocError> {
    match value(alloc, found)? {
        Some(shown) => Ok(Some(format!(in alloc; "{shown} {bit}")?)),
        None => Ok(None),
    }
}
