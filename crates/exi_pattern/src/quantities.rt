//! Quantities in braces.

ghost use Rattle.std.specs.Prelude.{◌≡◌, ◌==◌, nat_le, true, false, option_map};
ghost use Rattle.exi_digits.specs.Digits.{all_digits, is_numeral, number_of};
ghost use Rattle.exi_pattern.specs.Quantities.{begins_zero, is_bound, is_quantity, quantity};

use crate::splits::split_at_mark;

/// Whether all of these are digits.
fn all_digits(text: &[char]) -> bool
    ensures { result ≡ all_digits text.now }
{
    for c in text {
        if !matches!(*c, '0'..='9') {
            return false;
        }
    }
    true
}

/// Whether these are digits, one at least.
fn is_numeral(text: &[char]) -> bool
    ensures numeral { result ≡ is_numeral text.now }
    ensures digits { result ≡ true → all_digits text.now ≡ true }
{
    !text.is_empty() && all_digits(text)
}

/// The digits without zeros in front.
fn without_zeros(digits: &[char]) -> &[char]
    requires { all_digits digits.now ≡ true }
    ensures number { number_of result.now ≡ number_of digits.now }
    ensures digits { all_digits result.now ≡ true }
    ensures front { begins_zero result.now ≡ false }
{
    let mut rest = digits;
    while let ['0', behind @ ..] = rest {
        rest = behind;
    }
    rest
}

/// Whether the number is zero.
fn is_zero(digits: &[char]) -> bool
    requires { all_digits digits.now ≡ true }
    ensures { result ≡ (number_of digits.now == 0) }
{
    without_zeros(digits).is_empty()
}

/// Whether the second number is the first one at least.
fn is_at_most(least: &[char], most: &[char]) -> bool
    requires least { all_digits least.now ≡ true }
    requires most { all_digits most.now ≡ true }
    ensures { result ≡ nat_le (number_of least.now) (number_of most.now) }
{
    let least = without_zeros(least);
    let most = without_zeros(most);
    if least.len() == most.len() {
        least.cmp(&most).is_le()
    } else {
        least.len() < most.len()
    }
}

/// Whether this is a number, a number and a comma, or two numbers of which the second is not less; and not zero alone.
#[tactic(auto, unfolding(crate::specs::Quantities::is_quantity))]
fn is_quantity(text: &[char]) -> bool
    ensures { result ≡ is_quantity text.now }
{
    let (least, most) = split_at_mark(text, ',');
    if !is_numeral(least) {
        return false;
    }
    let Some(most) = most else {
        return !is_zero(least);
    };
    if most.is_empty() {
        return true;
    }
    is_numeral(most) && !is_zero(most) && is_at_most(least, most)
}

/// What is left behind a quantity and its `}`.
#[tactic(auto, unfolding(crate::specs::Quantities::quantity))]
pub(crate) fn quantity(rest: &[char]) -> Option<&[char]>
    ensures { option_map (λ r. r.now) result ≡ quantity rest.now }
{
    match split_at_mark(rest, '}') {
        (text, Some(rest)) if is_quantity(text) => Some(rest),
        _ => None,
    }
}
