//! The cases that read.

ghost use Rattle.std.specs.Prelude.{◌≤◌};
ghost use Rattle.exi_bits.specs.Bits.{IsAligned};

use exi_bits::{Align, BitIn, Fault, Kind, Stop};
use exi_cases::datatypes::moment_kind;
use exi_cases::fields::{align_of, bytes_of, open, set_of};
use exi_cases::show;
use exi_meter::{Limits, Meter};
use exi_moment::read_moment;
use exi_names::{Alphabet, MomentKind, Txt, Val};
use exi_scalar::{read_binary, read_boolean, read_decimal, read_float, read_integer};
use exi_text::read_chars;
use std::alloc::{AllocError, Global};

/// The answer to a case of this file. Each ends with `SKIP HEX`.
pub fn answer(alloc: Global, fields: &[&str]) -> Result<Option<String>, AllocError> {
    let [words @ .., skip, hex] = fields else {
        return Ok(None);
    };
    let Ok(skip) = skip.parse::<u64>() else {
        return Ok(None);
    };
    match bytes_of(alloc, hex)? {
        Some(bytes) => answer_on(alloc, words, skip, bytes.as_slice()),
        None => Ok(None),
    }
}

/// The answer for bytes from a bit.
fn answer_on(
    alloc: Global,
    words: &[&str],
    skip: u64,
    bytes: &[u8],
) -> Result<Option<String>, AllocError> {
    match words {
        ["uint"] => unsigned(alloc, skip, bytes),
        ["nbit", align, width] => number(alloc, align, width, skip, bytes),
        ["read", kind, align] => value(alloc, kind, align, skip, bytes),
        ["chars", set, align, count] => chars(alloc, set, align, count, skip, bytes),
        _ => Ok(None),
    }
}

/// Behind the last byte, where no reader starts, an item lacks bits.
fn behind(alloc: Global, skip: u64, bytes: &[u8]) -> Result<Option<String>, AllocError> {
    if skip / 8 < bytes.len() as u64 {
        return Ok(None);
    }
    let fault = Fault {
        kind: Kind::Short,
        bit: skip,
    };
    Ok(Some(show::fault(alloc, fault)?))
}

/// `uint SKIP HEX`
fn unsigned(alloc: Global, skip: u64, bytes: &[u8]) -> Result<Option<String>, AllocError> {
    match open(bytes, Align::Bits, skip) {
        Some(mut input) => unsigned_in(alloc, &mut input),
        None => behind(alloc, skip, bytes),
    }
}

fn unsigned_in(alloc: Global, input: &mut BitIn<'_>) -> Result<Option<String>, AllocError> {
    match input.unsigned() {
        Ok(value) => {
            let bit = input.at();
            Ok(Some(format!(in alloc; "{value} {bit}")?))
        }
        Err(fault) => Ok(Some(show::fault(alloc, fault)?)),
    }
}

/// `nbit ALIGN WIDTH SKIP HEX`
fn number(
    alloc: Global,
    align: &str,
    width: &str,
    skip: u64,
    bytes: &[u8],
) -> Result<Option<String>, AllocError> {
    let (Some(align), Ok(width)) = (align_of(align), width.parse::<u32>()) else {
        return Ok(None);
    };
    if width > 64 {
        return Ok(None);
    }
    match open(bytes, align, skip) {
        Some(mut input) => number_in(alloc, &mut input, align, width),
        None => Ok(None),
    }
}

fn number_in(
    alloc: Global,
    input: &mut BitIn<'_>,
    align: Align,
    width: u32,
) -> Result<Option<String>, AllocError>
    requires aligned { IsAligned align input.old }
    requires width { width ≤ 64 }
{
    let taken = input.take(width, align);
    let bit = input.at();
    match taken {
        Some(value) => Ok(Some(format!(in alloc; "{value} {bit}")?)),
        None => Ok(Some(format!(in alloc; "none {bit}")?)),
    }
}

/// `read DATATYPE ALIGN SKIP HEX`
fn value(
    alloc: Global,
    kind: &str,
    align: &str,
    skip: u64,
    bytes: &[u8],
) -> Result<Option<String>, AllocError> {
    let Some(align) = align_of(align) else {
        return Ok(None);
    };
    match open(bytes, align, skip) {
        Some(mut input) => value_in(alloc, &mut input, kind, align),
        None => Ok(None),
    }
}

fn value_in(
    alloc: Global,
    input: &mut BitIn<'_>,
    kind: &str,
    align: Align,
) -> Result<Option<String>, AllocError>
    requires { IsAligned align input.old }
{
    match read(alloc, input, kind, align) {
        Ok(Some(value)) => show::read(alloc, &value, input.at()),
        Ok(None) => Ok(None),
        Err(stop) => show::stop(alloc, stop),
    }
}

/// A value of the datatype of that name; nothing where there is none.
fn read(alloc: Global, input: &mut BitIn<'_>, kind: &str, align: Align) -> Result<Option<Val>, Stop>
    requires { IsAligned align input.old }
{
    match kind {
        "hex" => Ok(Some(octets(alloc, input, true, align)?)),
        "base64" => Ok(Some(octets(alloc, input, false, align)?)),
        "boolean" => told(read_boolean(input, false, align)),
        "boolean-pattern" => told(read_boolean(input, true, align)),
        "decimal" => told(read_decimal(input, align)),
        "float" => told(read_float(input, align)),
        "integer" => told(integer(input, align)),
        _ => match moment_kind(kind) {
            Some(kind) => told(moment(input, kind, align)),
            None => Ok(None),
        },
    }
}

/// A fault is a stop.
fn told(read: Result<Val, Fault>) -> Result<Option<Val>, Stop> {
    match read {
        Ok(value) => Ok(Some(value)),
        Err(fault) => Err(Stop::Fault(fault)),
    }
}

fn integer(input: &mut BitIn<'_>, align: Align) -> Result<Val, Fault>
    requires { IsAligned align input.old }
{
    Ok(Val::Int(read_integer(input, align)?))
}

fn moment(input: &mut BitIn<'_>, kind: MomentKind, align: Align) -> Result<Val, Fault>
    requires { IsAligned align input.old }
{
    Ok(Val::Mom(read_moment(input, kind, align)?))
}

fn octets(alloc: Global, input: &mut BitIn<'_>, hex: bool, align: Align) -> Result<Val, Stop>
    requires { IsAligned align input.old }
{
    let mut meter = Meter::new(Limits::of_stream());
    read_binary(alloc, input, hex, align, &mut meter)
}

/// `chars SET ALIGN COUNT SKIP HEX`
fn chars(
    alloc: Global,
    set: &str,
    align: &str,
    count: &str,
    skip: u64,
    bytes: &[u8],
) -> Result<Option<String>, AllocError> {
    let (Some(align), Ok(count)) = (align_of(align), count.parse::<u128>()) else {
        return Ok(None);
    };
    let Some(mut input) = open(bytes, align, skip) else {
        return Ok(None);
    };
    match set_of(alloc, set)? {
        Some(set) => chars_in(alloc, &mut input, count, set.as_ref(), align),
        None => Ok(None),
    }
}

fn chars_in(
    alloc: Global,
    input: &mut BitIn<'_>,
    count: u128,
    set: Option<&Alphabet>,
    align: Align,
) -> Result<Option<String>, AllocError>
    requires { IsAligned align input.old }
{
    let mut meter = Meter::new(Limits::of_stream());
    match read_chars(alloc, input, count, set, align, &mut meter) {
        Ok(text) => text_read(alloc, &text, input.at()),
        Err(stop) => show::stop(alloc, stop),
    }
}

fn text_read(alloc: Global, text: &Txt, bit: u64) -> Result<Option<String>, AllocError> {
    let hex = show::hex(alloc, text.as_str().as_bytes())?;
    Ok(Some(format!(in alloc; "text {hex} {bit}")?))
}
