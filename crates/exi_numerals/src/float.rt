ghost use Rattle.std.specs.Prelude.{◌≡◌, ◌++◌, pos, ◌-ℤ◌, ◌<◌, ◌^◌, OnOk, OnErr, string_bytes, option_copied};
ghost use Rattle.std.specs.Fmt.{signed_decimal};
ghost use Rattle.exi_digits.specs.Pushed.{HoldsFront};
ghost use Rattle.exi_names.specs.Wholes.{number};
ghost use Rattle.exi_names.specs.Forms.{int_of, is_exponent, is_mantissa, no_number};
ghost use Rattle.exi_numerals.specs.Floats.{exponent_in, float_text, float_value, held, mantissa_in, number_value, special_text};

use crate::decimal::{has_digits, split_decimal};
use crate::integer::wide_of;
use exi_digits::{number_behind, split_at_either};
use exi_names::Whole;
use itoa::Buffer;
use std::alloc::AllocError;

/// A float: `mantissa` times 10 to the `exponent`. With the exponent -16384 the mantissa 1 is infinity, -1 is
/// minus infinity, and 0 is not a number.
#[derive(Clone, Copy, Debug, PartialEq, Eq)]
pub struct Float {
    /// The mantissa.
    pub mantissa: i64,
    /// The exponent of 10.
    pub exponent: i16,
}

/// The exponent of infinity, of minus infinity, and of what is not a number.
const NO_NUMBER: i16 = -16384;

/// The number of this sign and magnitude, where 64 bits with a sign hold it.
fn signed(minus: bool, size: u128) -> Option<i64>
    ensures { result ≡ held is_mantissa (int_of (number minus size)) }
{
    if minus {
        if size > 1 << 63 {
            return None;
        }
        return Some(-(size as i128) as i64);
    }
    if size >= 1 << 63 {
        return None;
    }
    Some(size as i64)
}

/// The mantissa that a decimal's text tells, and how many digits its fraction has. Nothing where the text is
/// another, or 64 bits with a sign do not hold the number of all its digits.
fn mantissa_of(text: &[u8]) -> Option<(i64, usize)>
    ensures { result ≡ mantissa_in text.now }
{
    let (minus, whole, fraction) = split_decimal(text);
    if !has_digits(whole, fraction) {
        return None;
    }
    let whole = number_behind(0, whole)?;
    let size = number_behind(whole, fraction)?;
    let mantissa = signed(minus, size)?;
    Some((mantissa, fraction.len()))
}

/// The number.
fn int_of(whole: Whole) -> i128
    requires near { whole.size < 2 ^ 127 }
    ensures { result ≡ int_of whole }
{
    let size = whole.size as i128;
    if whole.minus { -size } else { size }
}

/// The written exponent less the number of the fraction's digits, where it is from -16383 to 16383.
fn less(written: Whole, count: usize) -> Option<i16>
    ensures { result ≡ held is_exponent (int_of written -ℤ pos count) }
{
    if written.size > 1 << 65 {
        return None;
    }
    let exponent = int_of(written) - count as i128;
    if -16383 <= exponent && exponent <= 16383 {
        Some(exponent as i16)
    } else {
        None
    }
}

/// The exponent of a float, of which the exponent's text is this, or has none; less the number of the fraction's
/// digits. Nothing where the text is no integer's, or the exponent is not from -16383 to 16383.
fn exponent_of(text: Option<&[u8]>, count: usize) -> Option<i16>
    ensures { result ≡ exponent_in (option_copied text.entry) count }
{
    match text {
        Some(text) => less(wide_of(text)?, count),
        None => less(Whole::new(false, 0), count),
    }
}

/// The value of a float's text that tells a number.
fn number_of(text: &[u8]) -> Option<Float>
    ensures { result ≡ number_value text.now }
{
    let (decimal, exponent) = split_at_either(text, b'E', b'e');
    let (mantissa, count) = mantissa_of(decimal)?;
    let exponent = exponent_of(exponent, count)?;
    Some(Float { mantissa, exponent })
}

/// The float with the exponent that tells no number.
fn special(mantissa: i64) -> Float
    ensures { result ≡ record { mantissa = mantissa; exponent = no_number } }
{
    Float {
        mantissa,
        exponent: NO_NUMBER,
    }
}

/// The value of a float's text: a decimal, and perhaps `E` or `e` and an integer; or `INF`, `-INF`, `NaN`. Nothing
/// where the text is another, where 64 bits with a sign do not hold the number of the decimal's digits, or where
/// the integer less the number of the fraction's digits is not from -16383 to 16383.
pub fn float_of(text: &[u8]) -> Option<Float>
    ensures { result ≡ float_value text.now }
{
    if text == b"INF".as_slice() {
        return Some(special(1));
    }
    if text == b"-INF".as_slice() {
        return Some(special(-1));
    }
    if text == b"NaN".as_slice() {
        return Some(special(0));
    }
    number_of(text)
}

/// Puts the digits at the end, behind `-` where the number is below zero.
fn push_signed(out: &mut String, number: i64) -> Result<(), AllocError>
    ensures ok { OnOk result (string_bytes out.new ≡ string_bytes out.old ++ signed_decimal number) }
    ensures err { OnErr result (string_bytes out.new ≡ string_bytes out.old) }
{
    let mut buffer = Buffer::new();
    out.push_str(buffer.format(number))
}

/// Puts the word at the end that tells infinity, minus infinity, or what is not a number.
fn push_special(out: &mut String, mantissa: i64) -> Result<(), AllocError>
    ensures ok { OnOk result (string_bytes out.new ≡ string_bytes out.old ++ special_text mantissa) }
    ensures err { OnErr result (string_bytes out.new ≡ string_bytes out.old) }
{
    match mantissa {
        1 => out.push_str("INF"),
        -1 => out.push_str("-INF"),
        _ => out.push_str("NaN"),
    }
}

/// Puts the canonical text of a float at the end: the mantissa, `E` and the exponent; or with the exponent -16384
/// `INF`, `-INF`, `NaN`.
///
/// # Errors
///
/// `AllocError` where memory is refused; the text then has a front of what was to be added, perhaps none.
pub fn push_float(out: &mut String, float: Float) -> Result<(), AllocError>
    ensures ok { OnOk result (string_bytes out.new ≡ string_bytes out.old ++ float_text float) }
    ensures err { OnErr result (HoldsFront (string_bytes out.old) (float_text float) (string_bytes out.new)) }
{
    if float.exponent == NO_NUMBER {
        return push_special(out, float.mantissa);
    }
    push_signed(out, float.mantissa)?;
    out.push('E')?;
    push_signed(out, i64::from(float.exponent))
}
