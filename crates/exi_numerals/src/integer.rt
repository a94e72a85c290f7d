ghost use Rattle.std.specs.Prelude.{◌≡◌, ◌++◌, ◌<◌, ◌^◌, OnOk, OnErr, IfSome, string_bytes};
ghost use Rattle.exi_digits.specs.Pushed.{HoldsFront};
ghost use Rattle.exi_names.specs.Forms.{is_integer, is_small, is_unsigned, is_wide};
ghost use Rattle.exi_numerals.specs.Integers.{behind_sign, has_minus, integer_in, integer_text, sign_text};

use exi_digits::{number, push_number};
use exi_names::Whole;
use std::alloc::AllocError;

/// Whether the text begins with `-`, and the text behind its sign, where it has one.
pub fn split_sign(text: &[u8]) -> (bool, &[u8])
    ensures minus { result.0 ≡ has_minus text.now }
    ensures rest { result.1.now ≡ behind_sign text.now }
{
    match text {
        [b'-', rest @ ..] => (true, rest),
        [b'+', rest @ ..] => (false, rest),
        _ => (false, text),
    }
}

/// The value of an integer's text, where it is less than 2^128 away from zero.
pub fn wide_of(text: &[u8]) -> Option<Whole>
    ensures { result ≡ integer_in is_wide text.now }
{
    let (minus, digits) = split_sign(text);
    let size = number(digits)?;
    Some(Whole::new(minus, size))
}

/// The value of an integer's text: an optional sign, and digits, one at least. Nothing where the text is another,
/// or the number is not from -2^127 to 2^127 - 1.
pub fn integer_of(text: &[u8]) -> Option<Whole>
    ensures { result ≡ integer_in is_integer text.now }
{
    let whole = wide_of(text)?;
    let bound = if whole.minus {
        1 << 127
    } else {
        (1 << 127) - 1
    };
    if whole.size <= bound {
        Some(whole)
    } else {
        None
    }
}

/// The value of an integer's text that is not below zero: an optional sign, and digits, one at least. Nothing
/// where the text is another, or the number is not from 0 to 2^128 - 1.
pub fn unsigned_of(text: &[u8]) -> Option<Whole>
    ensures { result ≡ integer_in is_unsigned text.now }
{
    let whole = wide_of(text)?;
    if whole.minus { None } else { Some(whole) }
}

/// Whether the number is one of the `count` numbers from `least` on.
fn is_small(least: i128, count: u16, whole: Whole) -> bool
    requires wide { whole.size < 2 ^ 128 }
    ensures { result ≡ is_small least count whole }
{
    let start = least.unsigned_abs();
    let count = u128::from(count);
    if least >= 0 {
        !whole.minus && start <= whole.size && whole.size - start < count
    } else if whole.minus {
        whole.size <= start && start - whole.size < count
    } else {
        whole.size < count && start + whole.size < count
    }
}

/// The value of an integer's text, where it is one of the `count` numbers from `least` on: an optional sign, and
/// digits, one at least. Nothing where the text is another, or the number is not one of them.
pub fn small_of(text: &[u8], least: i128, count: u16) -> Option<Whole>
    ensures { result ≡ integer_in (is_small least count) text.now }
{
    let whole = wide_of(text)?;
    if is_small(least, count, whole) {
        Some(whole)
    } else {
        None
    }
}

/// Puts `-` at the end, where it is wanted.
pub fn push_sign(out: &mut String, minus: bool) -> Result<(), AllocError>
    ensures ok { OnOk result (string_bytes out.new ≡ string_bytes out.old ++ sign_text minus) }
    ensures err { OnErr result (string_bytes out.new ≡ string_bytes out.old) }
{
    if minus {
        out.push('-')?;
    }
    Ok(())
}

/// Puts the canonical text of an integer at the end: its digits without zeros in front, behind `-` where it is
/// below zero.
///
/// # Errors
///
/// `AllocError` where memory is refused; the text then has a front of what was to be added, perhaps none.
pub fn push_integer(out: &mut String, whole: Whole) -> Result<(), AllocError>
    ensures ok { OnOk result (string_bytes out.new ≡ string_bytes out.old ++ integer_text whole) }
    ensures err { OnErr result (HoldsFront (string_bytes out.old) (integer_text whole) (string_bytes out.new)) }
{
    push_sign(out, whole.minus)?;
    push_number(out, whole.size)
}
