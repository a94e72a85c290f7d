//! The cases of texts and their values.

ghost use Rattle.std.specs.Prelude.{◌≡◌, true};
ghost use Rattle.exi_bits.specs.Written.{IsWholeBytes};
ghost use Rattle.exi_names.specs.Seen.{float};
ghost use Rattle.exi_scalar.specs.Scalars.{IsFloat, IsInteger};

use exi_bits::{Align, BitOut};
use exi_cases::datatypes::datatype;
use exi_cases::fields::{align_of, text_of, zeros};
use exi_cases::show;
use exi_lexical::value_of;
use exi_moment::{is_moment, write_moment};
use exi_names::{Datatype, Val, ValList, Whole};
use exi_scalar::{write_binary, write_boolean, write_decimal, write_float, write_integer};
use std::alloc::{AllocError, Global};

/// The answer to a case of this file.
pub fn answer(alloc: Global, fields: &[&str]) -> Result<Option<String>, AllocError> {
    match fields {
        ["value", kind, text] => value(alloc, kind, text),
        ["place", kind, text] => place(alloc, kind, text),
        ["write", kind, align, skip, text] => write(alloc, kind, align, skip, text),
        _ => Ok(None),
    }
}

/// The value of a text under a datatype, if it has one; nothing where the text is no hex of UTF-8.
fn valued(alloc: Global, kind: &Datatype, text: &str) -> Result<Option<Option<Val>>, AllocError> {
    match text_of(alloc, text)? {
        Some(text) => Ok(Some(value_of(alloc, kind, &text)?)),
        None => Ok(None),
    }
}

/// The answer where a text has no value.
fn none(alloc: Global) -> Result<Option<String>, AllocError> {
    Ok(Some(String::from_str(alloc, "none")?))
}

/// `value DATATYPE TEXT`
fn value(alloc: Global, kind: &str, text: &str) -> Result<Option<String>, AllocError> {
    match datatype(alloc, kind)? {
        Some(kind) => value_under(alloc, &kind, text),
        None => Ok(None),
    }
}

fn value_under(alloc: Global, kind: &Datatype, text: &str) -> Result<Option<String>, AllocError> {
    match valued(alloc, kind, text)? {
        Some(Some(found)) => show::value(alloc, &found),
        Some(None) => none(alloc),
        None => Ok(None),
    }
}

/// `place DATATYPE TEXT`, of an enumeration
fn place(alloc: Global, kind: &str, text: &str) -> Result<Option<String>, AllocError> {
    match datatype(alloc, kind)? {
        Some(kind) => place_under(alloc, &kind, text),
        None => Ok(None),
    }
}

fn place_under(alloc: Global, kind: &Datatype, text: &str) -> Result<Option<String>, AllocError> {
    let Datatype::Choice { base: _, values } = kind else {
        return Ok(None);
    };
    match valued(alloc, kind, text)? {
        Some(Some(found)) => place_in(alloc, values, &found),
        Some(None) => none(alloc),
        None => Ok(None),
    }
}

fn place_in(alloc: Global, values: &ValList, found: &Val) -> Result<Option<String>, AllocError> {
    match values.place_of(found) {
        Some(place) => Ok(Some(format!(in alloc; "{place}")?)),
        None => Ok(None),
    }
}

/// Whether an Integer has a spelling: from -2^127 to 2^127 - 1.
fn is_integer(whole: Whole) -> bool
    ensures { result ≡ true → IsInteger whole }
{
    whole.size < 1 << 127 || (whole.minus && whole.size == 1 << 127)
}

/// Whether a Float has a spelling: an exponent of 15 bits, and one of three mantissas with the least of them.
fn is_float(mantissa: i64, exponent: i16) -> bool
    ensures { result ≡ true → IsFloat (float mantissa exponent) }
{
    if exponent == -16384 {
        mantissa == 1 || mantissa == -1 || mantissa == 0
    } else {
        -16384 < exponent && exponent < 16384
    }
}

/// Writes a value by its kind's writer; false where it has no spelling there.
fn put(out: &mut BitOut, pattern: bool, value: &Val, align: Align) -> Result<bool, AllocError>
    requires { IsWholeBytes align out.old }
{
    match value {
        Val::Int(whole) if is_integer(*whole) => write_integer(out, *whole, align)?,
        Val::Bool { yes: _, digit } if pattern || !*digit => {
            write_boolean(out, value, pattern, align)?;
        }
        Val::Dec {
            minus: _,
            whole: _,
            back: _,
        } => write_decimal(out, value, align)?,
        Val::Flo { mantissa, exponent } if is_float(*mantissa, *exponent) => {
            write_float(out, value, align)?;
        }
        Val::Mom(moment) if is_moment(moment) => write_moment(out, moment, align)?,
        Val::Bin { hex: _, octets: _ } => write_binary(out, value, align)?,
        _ => return Ok(false),
    }
    Ok(true)
}

/// `write DATATYPE ALIGN SKIP TEXT`
fn write(
    alloc: Global,
    kind: &str,
    align: &str,
    skip: &str,
    text: &str,
) -> Result<Option<String>, AllocError> {
    let (Some(align), Ok(skip)) = (align_of(align), skip.parse::<u64>()) else {
        return Ok(None);
    };
    match datatype(alloc, kind)? {
        Some(kind) => write_under(alloc, &kind, align, skip, text),
        None => Ok(None),
    }
}

fn write_under(
    alloc: Global,
    kind: &Datatype,
    align: Align,
    skip: u64,
    text: &str,
) -> Result<Option<String>, AllocError> {
    let pattern = matches!(kind, Datatype::Boolean { pattern: true });
    match valued(alloc, kind, text)? {
        Some(Some(value)) => write_value(alloc, pattern, &value, align, skip),
        Some(None) => none(alloc),
        None => Ok(None),
    }
}

fn write_value(
    alloc: Global,
    pattern: bool,
    value: &Val,
    align: Align,
    skip: u64,
) -> Result<Option<String>, AllocError> {
    let Some(mut out) = zeros(alloc, align, skip)? else {
        return Ok(None);
    };
    if put(&mut out, pattern, value, align)? {
        show::bits(alloc, &out)
    } else {
        Ok(None)
    }
}
