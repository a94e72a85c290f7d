//! The canonical text of a value.

ghost use Rattle.std.specs.Prelude.{◌≡◌, ◌==◌, if◌then◌else◌, [], ◌∷◌, ◌++◌, true, encode_utf8_all, IfOk, OnOk, string_bytes};
ghost use Rattle.exi_names.specs.Seen.{seen, values_of, vals};
ghost use Rattle.exi_names.specs.Texts.{all_have_text, has_text};
ghost use Rattle.exi_calendar.specs.Forms.{moment_text};
ghost use Rattle.exi_numerals.specs.Decimals.{decimal_text};
ghost use Rattle.exi_numerals.specs.Floats.{float_text};
ghost use Rattle.exi_numerals.specs.Integers.{integer_text};
ghost use Rattle.exi_lexical.specs.Values.{binary_text, boolean_text, canonical, texts};
ghost use Rattle.std.specs.List.{join_with_byte};

use crate::binaries::{put_base64, put_hex};
use exi_calendar::push_moment;
use exi_names::{Moment, Txt, Val, ValList, Whole};
use exi_numerals::{Decimal, Float, push_decimal, push_float, push_integer};
use std::alloc::{AllocError, Global};

/// Puts a boolean's word or digit at the end.
fn put_boolean(out: &mut String, yes: bool, digit: bool) -> Result<(), AllocError>
    ensures { OnOk result (string_bytes out.new ≡ string_bytes out.old ++ encode_utf8_all (boolean_text yes digit)) }
{
    out.push_str(match (yes, digit) {
        (true, false) => "true",
        (false, false) => "false",
        (true, true) => "1",
        (false, true) => "0",
    })
}

/// Puts octets as digits at the end.
fn put_binary(alloc: Global, out: &mut String, hex: bool, octets: &[u8]) -> Result<(), AllocError>
    ensures { OnOk result (string_bytes out.new ≡ string_bytes out.old ++ encode_utf8_all (binary_text hex octets.now)) }
{
    if hex {
        put_hex(alloc, out, octets)
    } else {
        put_base64(out, octets)
    }
}

/// Puts the digits of an integer at the end.
fn put_integer(out: &mut String, whole: Whole) -> Result<(), AllocError>
    ensures { OnOk result (string_bytes out.new ≡ string_bytes out.old ++ encode_utf8_all (integer_text whole)) }
{
    push_integer(out, whole)
}

/// Puts a decimal at the end.
fn put_decimal(out: &mut String, decimal: Decimal) -> Result<(), AllocError>
    ensures { OnOk result (string_bytes out.new ≡ string_bytes out.old ++ encode_utf8_all (decimal_text decimal)) }
{
    push_decimal(out, decimal)
}

/// Puts a float at the end.
fn put_float(out: &mut String, float: Float) -> Result<(), AllocError>
    ensures { OnOk result (string_bytes out.new ≡ string_bytes out.old ++ encode_utf8_all (float_text float)) }
{
    push_float(out, float)
}

/// Puts a date or a time at the end.
fn put_moment(out: &mut String, moment: Moment) -> Result<(), AllocError>
    ensures { OnOk result (string_bytes out.new ≡ string_bytes out.old ++ encode_utf8_all (moment_text moment)) }
{
    push_moment(out, &moment)
}

/// Puts a space at the end, in front of each item but the first.
fn separate(out: &mut String, index: usize) -> Result<(), AllocError>
    ensures { OnOk result (string_bytes out.new ≡ string_bytes out.old ++ (if index == 0 then [] else 32 ∷ [])) }
{
    if index > 0 {
        out.push(' ')?;
    }
    Ok(())
}

/// Puts the canonical text of a value at the end.
#[cycle(put)]
fn put(alloc: Global, out: &mut String, value: &Val) -> Result<(), AllocError>
    requires { has_text (seen value.now) ≡ true }
    ensures { OnOk result (string_bytes out.new ≡ string_bytes out.old ++ encode_utf8_all (canonical (seen value.now))) }
{
    match value {
        Val::Text(text) => out.push_str(text.as_str()),
        Val::Bool { yes, digit } => put_boolean(out, *yes, *digit),
        Val::Bin { hex, octets } => put_binary(alloc, out, *hex, octets.as_slice()),
        Val::Int(whole) => put_integer(out, *whole),
        Val::Dec { minus, whole, back } => put_decimal(
            out,
            Decimal {
                minus: *minus,
                whole: *whole,
                back: *back,
            },
        ),
        Val::Flo { mantissa, exponent } => put_float(
            out,
            Float {
                mantissa: *mantissa,
                exponent: *exponent,
            },
        ),
        Val::Mom(moment) => put_moment(out, *moment),
        Val::Items(list) => put_list(alloc, out, list),
        Val::Name(_) => unreachable!(),
    }
}

/// Puts the canonical texts of values at the end, with one space between.
#[cycle(put)]
fn put_list(alloc: Global, out: &mut String, list: &ValList) -> Result<(), AllocError>
    requires { all_have_text (values_of (vals list.now)) ≡ true }
    ensures { OnOk result (string_bytes out.new ≡ string_bytes out.old ++ encode_utf8_all (join_with_byte 32 (texts (values_of (vals list.now))))) }
{
    for (index, value) in list.items.iter().enumerate() {
        separate(out, index)?;
        put(alloc, out, value)?;
    }
    Ok(())
}

/// The canonical text of a value: the one of its texts that is written.
///
/// - an integer: its digits, behind `-` where it is negative;
/// - a boolean: `true` or `false`, or `1` or `0` where it is told by a digit;
/// - a decimal: always with a point, and a digit at least on either side;
/// - a float: mantissa, `E`, exponent; with the exponent -16384 `INF`, `-INF` or `NaN`;
/// - a date or a time: the form of its kind, with a year of at least four digits, a fraction only where it has one,
///   and `Z` for the zone 0;
/// - octets: hex digits in upper case, or base64 with fillers;
/// - a string: itself;
/// - a list: its items with one space between.
///
/// A text that has a value has it again in its canonical text (`laws::value_comes_back`). The value may
/// be no name, nor a list that holds one at any depth: what [`value_of`](crate::value_of) gives never is.
///
/// # Errors
///
/// `AllocError` where memory is refused.
pub fn canon(alloc: Global, value: &Val) -> Result<Txt, AllocError>
    requires { has_text (seen value.now) ≡ true }
    ensures { IfOk result (λ text. text ≡ canonical (seen value.now)) }
{
    let mut out = String::new(alloc);
    put(alloc, &mut out, value)?;
    Ok(Txt::from_string(out))
}
