ghost use Rattle.std.specs.Prelude.{◌≡◌, ◌++◌, OnOk, OnErr, string_bytes};
ghost use Rattle.exi_digits.specs.Digits.{has_any};
ghost use Rattle.exi_digits.specs.Pushed.{HoldsFront};
ghost use Rattle.exi_numerals.specs.Decimals.{decimal_text, decimal_value, fraction_digits, whole_digits};
ghost use Rattle.exi_numerals.specs.Integers.{has_minus};

use crate::integer::{push_sign, split_sign};
use exi_digits::{back, number_behind, push_fraction, push_number, split_at_mark};
use std::alloc::AllocError;

/// A decimal.
#[derive(Clone, Copy, Debug, PartialEq, Eq)]
pub struct Decimal {
    /// Whether its sign is minus, also before a zero.
    pub minus: bool,
    /// The part before the point.
    pub whole: u128,
    /// The number that the fraction's digits give when read backwards.
    pub back: u128,
}

/// Whether a decimal's text begins with `-`, what stands before its point, and what behind it.
pub fn split_decimal(text: &[u8]) -> (bool, &[u8], &[u8])
    ensures minus { result.0 ≡ has_minus text.now }
    ensures whole { result.1.now ≡ whole_digits text.now }
    ensures fraction { result.2.now ≡ fraction_digits text.now }
{
    let (minus, digits) = split_sign(text);
    let (whole, fraction) = split_at_mark(digits, b'.');
    match fraction {
        Some(fraction) => (minus, whole, fraction),
        None => (minus, whole, &[]),
    }
}

/// Whether there is a digit on either side of the point.
pub fn has_digits(whole: &[u8], fraction: &[u8]) -> bool
    ensures { result ≡ has_any (whole.now ++ fraction.now) }
{
    !whole.is_empty() || !fraction.is_empty()
}

/// The value of a decimal's text: an optional sign, and digits with an optional point, one digit at least.
/// Nothing where the text is another, or where the part before the point, or the number of the fraction's digits
/// in reverse, is not below 2^128.
pub fn decimal_of(text: &[u8]) -> Option<Decimal>
    ensures { result ≡ decimal_value text.now }
{
    let (minus, whole, fraction) = split_decimal(text);
    if !has_digits(whole, fraction) {
        return None;
    }
    let whole = number_behind(0, whole)?;
    let back = back(fraction)?;
    Some(Decimal { minus, whole, back })
}

/// Puts the canonical text of a decimal at the end: always with a point, and a digit at least on either side.
///
/// # Errors
///
/// `AllocError` where memory is refused; the text then has a front of what was to be added, perhaps none.
pub fn push_decimal(out: &mut String, decimal: Decimal) -> Result<(), AllocError>
    ensures ok { OnOk result (string_bytes out.new ≡ string_bytes out.old ++ decimal_text decimal) }
    ensures err { OnErr result (HoldsFront (string_bytes out.old) (decimal_text decimal) (string_bytes out.new)) }
{
    push_sign(out, decimal.minus)?;
    push_number(out, decimal.whole)?;
    out.push('.')?;
    push_fraction(out, decimal.back)
}
