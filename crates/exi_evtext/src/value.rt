//! Values: a word, and the canonical text between quotes.

ghost use Rattle.std.specs.Prelude.{◌≡◌, ◌++◌, ◌<◌, OnOk, OnErr, string_bytes};
ghost use Rattle.exi_names.specs.Seen.{boolean, integer, binary, seen, vals, values_of};
ghost use Rattle.exi_names.specs.Seen as shape;
ghost use Rattle.exi_lexical.specs.Binaries.{base64_text, hex_text};
ghost use Rattle.exi_lexical.specs.Binaries.{hex_sign as sign};
ghost use Rattle.exi_evtext.specs.Kept.{Keeps};
ghost use Rattle.exi_evtext.specs.Lines.{value_words};

use crate::quote::{push_name, push_quoted};
use base64::engine::general_purpose::STANDARD;
use exi_calendar::push_moment;
use exi_digits::push_number;
use exi_names::{Moment, Val, ValList, Whole};
use exi_numerals::{Decimal, Float, push_decimal, push_float, push_integer};
use std::alloc::AllocError;

/// A boolean, as its word or its digit tells it.
fn push_boolean(out: &mut String, yes: bool, digit: bool) -> Result<(), AllocError>
    ensures ok { OnOk result (string_bytes out.new ≡ string_bytes out.old ++ value_words (boolean yes digit)) }
    ensures err { OnErr result (Keeps (string_bytes out.old) (string_bytes out.new)) }
{
    out.push_str(match (yes, digit) {
        (true, false) => "bool \"true\"",
        (false, false) => "bool \"false\"",
        (true, true) => "bool \"1\"",
        (false, true) => "bool \"0\"",
    })
}

/// An integer.
fn push_int(out: &mut String, whole: Whole) -> Result<(), AllocError>
    ensures ok { OnOk result (string_bytes out.new ≡ string_bytes out.old ++ value_words (integer whole)) }
    ensures err { OnErr result (Keeps (string_bytes out.old) (string_bytes out.new)) }
{
    out.push_str("int \"")?;
    push_integer(out, whole)?;
    out.push('"')
}

/// A decimal.
fn push_dec(out: &mut String, decimal: Decimal) -> Result<(), AllocError>
    ensures ok { OnOk result (string_bytes out.new ≡ string_bytes out.old ++ value_words (shape.decimal decimal.minus decimal.whole decimal.back)) }
    ensures err { OnErr result (Keeps (string_bytes out.old) (string_bytes out.new)) }
{
    out.push_str("dec \"")?;
    push_decimal(out, decimal)?;
    out.push('"')
}

/// A float.
fn push_flo(out: &mut String, float: Float) -> Result<(), AllocError>
    ensures ok { OnOk result (string_bytes out.new ≡ string_bytes out.old ++ value_words (shape.float float.mantissa float.exponent)) }
    ensures err { OnErr result (Keeps (string_bytes out.old) (string_bytes out.new)) }
{
    out.push_str("flo \"")?;
    push_float(out, float)?;
    out.push('"')
}

/// A date or a time.
fn push_mom(out: &mut String, moment: &Moment) -> Result<(), AllocError>
    ensures ok { OnOk result (string_bytes out.new ≡ string_bytes out.old ++ value_words (shape.moment moment.now)) }
    ensures err { OnErr result (Keeps (string_bytes out.old) (string_bytes out.new)) }
{
    out.push_str("mom \"")?;
    push_moment(out, moment)?;
    out.push('"')
}

/// The digit of four bits, in upper case.
fn hex_sign(digit: u8) -> char
    requires four { digit < 16 }
    ensures sign { result ≡ sign digit }
    ensures ascii { result < 128 }
{
    if digit < 10 {
        char::from(b'0' + digit)
    } else {
        char::from(b'A' - 10 + digit)
    }
}

/// Two digits in upper case for each octet.
pub fn push_hex(out: &mut String, octets: &[u8]) -> Result<(), AllocError>
    ensures ok { OnOk result (string_bytes out.new ≡ string_bytes out.old ++ hex_text octets.now) }
    ensures err { OnErr result (Keeps (string_bytes out.old) (string_bytes out.new)) }
{
    for octet in octets {
        out.push(hex_sign(*octet / 16))?;
        out.push(hex_sign(*octet % 16))?;
    }
    Ok(())
}

/// Base64 digits with their fillers.
fn push_base64(out: &mut String, octets: &[u8]) -> Result<(), AllocError>
    ensures ok { OnOk result (string_bytes out.new ≡ string_bytes out.old ++ base64_text octets.now) }
    ensures err { OnErr result (Keeps (string_bytes out.old) (string_bytes out.new)) }
{
    STANDARD.encode_string(octets, out)
}

/// Octets.
fn push_binary(out: &mut String, hex: bool, octets: &[u8]) -> Result<(), AllocError>
    ensures ok { OnOk result (string_bytes out.new ≡ string_bytes out.old ++ value_words (binary hex octets.now)) }
    ensures err { OnErr result (Keeps (string_bytes out.old) (string_bytes out.new)) }
{
    if hex {
        out.push_str("hex \"")?;
        push_hex(out, octets)?;
    } else {
        out.push_str("base64 \"")?;
        push_base64(out, octets)?;
    }
    out.push('"')
}

/// A value: its word, and its canonical text or what it holds.
#[cycle(push)]
pub fn push_value(out: &mut String, value: &Val) -> Result<(), AllocError>
    ensures ok { OnOk result (string_bytes out.new ≡ string_bytes out.old ++ value_words (seen value.now)) }
    ensures err { OnErr result (Keeps (string_bytes out.old) (string_bytes out.new)) }
{
    match value {
        Val::Text(text) => {
            out.push_str("text ")?;
            push_quoted(out, text)
        }
        Val::Bool { yes, digit } => push_boolean(out, *yes, *digit),
        Val::Int(whole) => push_int(out, *whole),
        Val::Dec { minus, whole, back } => push_dec(
            out,
            Decimal {
                minus: *minus,
                whole: *whole,
                back: *back,
            },
        ),
        Val::Flo { mantissa, exponent } => push_flo(
            out,
            Float {
                mantissa: *mantissa,
                exponent: *exponent,
            },
        ),
        Val::Mom(moment) => push_mom(out, moment),
        Val::Bin { hex, octets } => push_binary(out, *hex, octets.as_slice()),
        Val::Items(list) => push_list(out, list),
        Val::Name(name) => {
            out.push_str("name ")?;
            push_name(out, &name.as_ref())
        }
    }
}

/// How many values, and each of them.
#[cycle(push)]
fn push_list(out: &mut String, list: &ValList) -> Result<(), AllocError>
    ensures ok { OnOk result (string_bytes out.new ≡ string_bytes out.old ++ value_words (shape.items (values_of (vals list.now)))) }
    ensures err { OnErr result (Keeps (string_bytes out.old) (string_bytes out.new)) }
{
    out.push_str("list ")?;
    push_number(out, list.items.len() as u128)?;
    for value in &list.items {
        out.push(' ')?;
        push_value(out, value)?;
    }
    Ok(())
}
