//! Values that are neither strings, names nor lists, from their canonical text: a text is taken where the value's text,
//! printed again, is the same.
//!
//! Each kind is read by a call of its own: a value is large, and each way that is taken in line has room for one.

ghost use Rattle.std.specs.Prelude.{◌≡◌, ◌∷◌, [], option_map, true, false, bytes_eq, string_bytes};
ghost use Rattle.exi_names.specs.Seen.{Value, binary, integer, moment, seen};
ghost use Rattle.exi_calendar.specs.Reading.{moment_value};
ghost use Rattle.exi_lexical.specs.Binaries.{base64_octets, hex_octets};
ghost use Rattle.exi_lexical.specs.Values.{boolean_value, canonical, of_decimal, of_float};
ghost use Rattle.exi_numerals.specs.Decimals.{decimal_value};
ghost use Rattle.exi_numerals.specs.Floats.{float_value};
ghost use Rattle.exi_numerals.specs.Integers.{integer_in};
ghost use Rattle.exi_evtext.specs.Parsing.{IsSame, Tells, dated};
ghost use Rattle.exi_evtext.specs.Reading.{any_moment, if_canonical, is_spelled, number_of, scalar_of};

use crate::stop::LineStop;
use crate::value::push_hex;
use base64::DecodeAllocError;
use base64::engine::general_purpose::STANDARD;
use exi_calendar::{moment, push_moment, whole_seconds};
use exi_names::{Moment, MomentKind, Octets, Val, Whole};
use exi_numerals::{
    decimal_of, float_of, integer_of, push_decimal, push_float, push_integer, unsigned_of,
};
use hex::FromHexError;
use itoa::Buffer;
use std::alloc::Global;

/// The number that has these digits, without a 0 in front.
#[tactic(auto, unfolding(crate::specs::Reading::number_of))]
pub fn number_of(digits: &[u8]) -> Option<u128>
    ensures { result ≡ number_of digits.now }
{
    let number = exi_digits::number(digits)?;
    let mut buffer = Buffer::new();
    if buffer.format(number).as_bytes() == digits {
        Some(number)
    } else {
        None
    }
}

/// Whether what was printed is this.
fn is_same(printed: &String, digits: &[u8]) -> Result<(), LineStop>
    ensures { IsSame result (string_bytes printed.now) digits.now }
{
    if printed.as_bytes() == digits {
        Ok(())
    } else {
        Err(LineStop::Form)
    }
}

/// A boolean by its word or by its digit.
#[tactic(auto, unfolding(exi_lexical::specs::Values::boolean_value))]
#[inline(never)]
fn boolean(digits: &[u8]) -> Result<Val, LineStop>
    ensures { Tells seen result (boolean_value true digits.now) }
{
    let (yes, digit) = if digits == b"true".as_slice() {
        (true, false)
    } else if digits == b"false".as_slice() {
        (false, false)
    } else if digits == b"1".as_slice() {
        (true, true)
    } else if digits == b"0".as_slice() {
        (false, true)
    } else {
        return Err(LineStop::Form);
    };
    Ok(Val::Bool { yes, digit })
}

/// An integer's text, where some datatype can spell the number: it is from -2^127 to 2^128 - 1.
fn spelled_of(digits: &[u8]) -> Option<Whole>
    ensures { result ≡ integer_in is_spelled digits.now }
{
    match unsigned_of(digits) {
        Some(whole) => Some(whole),
        None => integer_of(digits),
    }
}

/// An integer's canonical text.
pub fn whole_of(scratch: &mut String, digits: &[u8]) -> Result<Whole, LineStop>
    ensures { Tells integer result (if_canonical digits.now (option_map integer (integer_in is_spelled digits.now))) }
{
    let Some(whole) = spelled_of(digits) else {
        return Err(LineStop::Form);
    };
    scratch.clear();
    push_integer(scratch, whole)?;
    is_same(scratch, digits)?;
    Ok(whole)
}

/// An integer.
#[inline(never)]
fn int(scratch: &mut String, digits: &[u8]) -> Result<Val, LineStop>
    ensures { Tells seen result (if_canonical digits.now (option_map integer (integer_in is_spelled digits.now))) }
{
    let whole = whole_of(scratch, digits)?;
    Ok(Val::Int(whole))
}

/// A decimal.
#[inline(never)]
fn dec(scratch: &mut String, digits: &[u8]) -> Result<Val, LineStop>
    ensures { Tells seen result (if_canonical digits.now (option_map of_decimal (decimal_value digits.now))) }
{
    let Some(decimal) = decimal_of(digits) else {
        return Err(LineStop::Form);
    };
    scratch.clear();
    push_decimal(scratch, decimal)?;
    is_same(scratch, digits)?;
    Ok(Val::Dec {
        minus: decimal.minus,
        whole: decimal.whole,
        back: decimal.back,
    })
}

/// A float.
#[inline(never)]
fn flo(scratch: &mut String, digits: &[u8]) -> Result<Val, LineStop>
    ensures { Tells seen result (if_canonical digits.now (option_map of_float (float_value digits.now))) }
{
    let Some(float) = float_of(digits) else {
        return Err(LineStop::Form);
    };
    scratch.clear();
    push_float(scratch, float)?;
    is_same(scratch, digits)?;
    Ok(Val::Flo {
        mantissa: float.mantissa,
        exponent: float.exponent,
    })
}

/// The date or the time of the kind of which the text is one. No text is one of two kinds.
fn dated(digits: &[u8]) -> Option<Moment>
    ensures { result ≡ dated digits.now }
{
    moment(MomentKind::GYear, digits)
        .or_else(|| moment(MomentKind::GYearMonth, digits))
        .or_else(|| moment(MomentKind::Date, digits))
        .or_else(|| moment(MomentKind::DateTime, digits))
        .or_else(|| moment(MomentKind::GMonth, digits))
        .or_else(|| moment(MomentKind::GMonthDay, digits))
        .or_else(|| moment(MomentKind::GDay, digits))
        .or_else(|| moment(MomentKind::Time, digits))
}

/// A date or a time of any kind. One in its most frequent form is canonical, and not printed again.
#[inline(never)]
fn mom(scratch: &mut String, digits: &[u8]) -> Result<Val, LineStop>
    ensures { Tells seen result (any_moment digits.now) }
{
    if let Some(moment) = whole_seconds(digits) {
        return Ok(Val::Mom(moment));
    }
    let Some(moment) = dated(digits) else {
        return Err(LineStop::Form);
    };
    scratch.clear();
    push_moment(scratch, &moment)?;
    is_same(scratch, digits)?;
    Ok(Val::Mom(moment))
}

/// The octets of pairs of hex digits of either case.
fn hex_octets(alloc: Global, digits: &[u8]) -> Result<Octets, LineStop>
    ensures { Tells (λ octets. octets) result (hex_octets digits.now) }
{
    match hex::decode(alloc, digits) {
        Ok(octets) => Ok(Octets::from_vec(octets)),
        Err(error) => match error {
            FromHexError::OutOfMemory => Err(LineStop::Memory),
            _ => Err(LineStop::Form),
        },
    }
}

/// Octets in hexadecimal.
#[inline(never)]
fn hexadecimal(alloc: Global, scratch: &mut String, digits: &[u8]) -> Result<Val, LineStop>
    ensures { Tells seen result (if_canonical digits.now (option_map (binary true) (hex_octets digits.now))) }
{
    let octets = hex_octets(alloc, digits)?;
    scratch.clear();
    push_hex(scratch, octets.as_slice())?;
    is_same(scratch, digits)?;
    Ok(Val::Bin { hex: true, octets })
}

/// The octets of base64 digits with their fillers.
fn base64_octets(alloc: Global, digits: &[u8]) -> Result<Octets, LineStop>
    ensures { Tells (λ octets. octets) result (base64_octets digits.now) }
{
    match STANDARD.decode(alloc, digits) {
        Ok(octets) => Ok(Octets::from_vec(octets)),
        Err(error) => match error {
            DecodeAllocError::OutOfMemory => Err(LineStop::Memory),
            _ => Err(LineStop::Form),
        },
    }
}

/// Octets in base64.
#[inline(never)]
fn base64(alloc: Global, digits: &[u8]) -> Result<Val, LineStop>
    ensures { Tells seen result (option_map (binary false) (base64_octets digits.now)) }
{
    let octets = base64_octets(alloc, digits)?;
    Ok(Val::Bin { hex: false, octets })
}

/// Whether a word has these three bytes, and no more.
#[inline(always)]
fn is_three(word: &[u8], first: u8, second: u8, third: u8) -> bool
    ensures { result ≡ bytes_eq word.now (first ∷ second ∷ third ∷ []) }
{
    word.len() == 3 && word[0] == first && word[1] == second && word[2] == third
}

/// Whether a word has these four bytes, and no more.
#[inline(always)]
pub fn is_four(word: &[u8], first: u8, second: u8, third: u8, fourth: u8) -> bool
    ensures { result ≡ bytes_eq word.now (first ∷ second ∷ third ∷ fourth ∷ []) }
{
    word.len() == 4
        && word[0] == first
        && word[1] == second
        && word[2] == third
        && word[3] == fourth
}

/// The value that a word and a canonical text tell.
#[tactic(auto, unfolding(crate::specs::Reading::scalar_of))]
pub fn scalar_of(
    alloc: Global,
    scratch: &mut String,
    word: &[u8],
    digits: &[u8],
) -> Result<Val, LineStop>
    ensures { Tells seen result (scalar_of word.now digits.now) }
{
    if is_four(word, b'b', b'o', b'o', b'l') {
        boolean(digits)
    } else if is_three(word, b'i', b'n', b't') {
        int(scratch, digits)
    } else if is_three(word, b'd', b'e', b'c') {
        dec(scratch, digits)
    } else if is_three(word, b'f', b'l', b'o') {
        flo(scratch, digits)
    } else if is_three(word, b'm', b'o', b'm') {
        mom(scratch, digits)
    } else if is_three(word, b'h', b'e', b'x') {
        hexadecimal(alloc, scratch, digits)
    } else if word == b"base64".as_slice() {
        base64(alloc, digits)
    } else {
        Err(LineStop::Form)
    }
}
