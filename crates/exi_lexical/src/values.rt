//! The value of a text.

ghost use Rattle.std.specs.Prelude.{◌≡◌, true, Some, IfOk, IfSome, option_map};
ghost use Rattle.std.specs.Option.{is_some};
ghost use Rattle.std.specs.Str.{chars};
ghost use Rattle.exi_names.specs.Datatypes.{represented};
ghost use Rattle.exi_names.specs.Forms.{IsOf};
ghost use Rattle.exi_names.specs.Seen.{items, seen, vals, values_of};
ghost use Rattle.exi_names.specs.Texts.{has_text};
ghost use Rattle.exi_numerals.specs.Decimals.{decimal_value};
ghost use Rattle.exi_numerals.specs.Floats.{float_value};
ghost use Rattle.exi_lexical.specs.Values.{of_decimal, of_float, binary_value, boolean_value, canonical, chosen, form_value, list_value, scalar_value, value};

use crate::binaries::{base64_value, hex_value};
use crate::spaces::{next_word, trim};
use exi_calendar::moment;
use exi_names::{Datatype, MOST_ITEMS, Txt, Val, ValList};
use exi_numerals::{Decimal, Float, decimal_of, float_of, integer_of, small_of, unsigned_of};
use std::alloc::{AllocError, Global};

/// The value of one of the four texts of a boolean, if the text is such.
#[tactic(auto, unfolding(crate::specs::Values::boolean_value))]
fn boolean(pattern: bool, text: &str) -> Option<Val>
    ensures { option_map seen result ≡ boolean_value pattern text.now }
{
    match text {
        "true" => Some(Val::Bool {
            yes: true,
            digit: false,
        }),
        "false" => Some(Val::Bool {
            yes: false,
            digit: false,
        }),
        "1" => Some(Val::Bool {
            yes: true,
            digit: pattern,
        }),
        "0" => Some(Val::Bool {
            yes: false,
            digit: pattern,
        }),
        _ => None,
    }
}

/// The octets that a text spells, if it does.
fn binary(alloc: Global, hex: bool, text: &[u8]) -> Result<Option<Val>, AllocError>
    ensures { IfOk result (λ v. option_map seen v ≡ binary_value hex text.now) }
{
    let octets = if hex {
        hex_value(alloc, text)?
    } else {
        base64_value(alloc, text)?
    };
    Ok(octets.map(|octets| Val::Bin { hex, octets }))
}

/// The value of a decimal's text, if the text is such.
fn decimal(text: &[u8]) -> Option<Val>
    ensures { option_map seen result ≡ option_map of_decimal (decimal_value text.now) }
{
    let Decimal { minus, whole, back } = decimal_of(text)?;
    Some(Val::Dec { minus, whole, back })
}

/// The value of a float's text, if the text is such.
fn float(text: &[u8]) -> Option<Val>
    ensures { option_map seen result ≡ option_map of_float (float_value text.now) }
{
    let Float { mantissa, exponent } = float_of(text)?;
    Some(Val::Flo { mantissa, exponent })
}

/// The value of an ASCII text in the form of a datatype whose values are neither strings, lists, names nor
/// enumerated; none under any other.
fn form(alloc: Global, kind: &Datatype, text: &str) -> Result<Option<Val>, AllocError>
    ensures { IfOk result (λ v. option_map seen v ≡ form_value (represented kind.now) text.now) }
{
    let bytes = text.as_bytes();
    match kind {
        Datatype::Small { least, count } => Ok(small_of(bytes, *least, *count).map(Val::Int)),
        Datatype::Unsigned => Ok(unsigned_of(bytes).map(Val::Int)),
        Datatype::Integer => Ok(integer_of(bytes).map(Val::Int)),
        Datatype::Boolean { pattern } => Ok(boolean(*pattern, text)),
        Datatype::Binary { hex } => binary(alloc, *hex, bytes),
        Datatype::Decimal => Ok(decimal(bytes)),
        Datatype::Float => Ok(float(bytes)),
        Datatype::Moment(kind) => Ok(moment(*kind, bytes).map(Val::Mom)),
        Datatype::List(_)
        | Datatype::Choice { base: _, values: _ }
        | Datatype::Text
        | Datatype::Chars(_)
        | Datatype::Name { prefixes: _ } => Ok(None),
    }
}

/// The value of a trimmed text under such a datatype. The forms have ASCII characters alone.
fn scalar(alloc: Global, kind: &Datatype, text: &str) -> Result<Option<Val>, AllocError>
    ensures { IfOk result (λ v. option_map seen v ≡ scalar_value (represented kind.now) (chars text.now)) }
{
    if !text.is_ascii() {
        return Ok(None);
    }
    form(alloc, kind, text)
}

/// The value that a text has under a datatype, if it has one. White space at either end is dropped, except under
/// `Text` and `Chars`; white space is tab, line feed, carriage return and space.
///
/// - `Small`, `Unsigned`, `Integer`: an optional `+` or `-` and digits, where the number is one that the datatype
///   can spell; `-0` is 0.
/// - `Boolean`: `true`, `false`, `1`, `0`. Only where the datatype has a pattern the value tells a digit from a word.
/// - `Decimal`: an optional sign, and digits with an optional point, one digit at least. The sign is kept, also on a
///   zero. The part before the point, and the number of the fraction's digits in reverse, are below 2^128.
/// - `Float`: a decimal, and perhaps `E` or `e` with an integer; or `INF`, `-INF`, `NaN`. The mantissa is the number
///   of all its digits and fits an `i64`; the exponent is the written one less the number of the fraction's digits,
///   from -16383 to 16383.
/// - `Moment`: the form of the kind, as [`exi_calendar::moment`] says.
/// - `Binary`: pairs of hex digits of either case; or groups of four base64 digits, with fillers in the last group
///   and unused bits 0, in which white space may stand anywhere.
/// - `List`: words between white space, at most [`MOST_ITEMS`], each with a value.
/// - `Choice`: the value under the base, where it is an enumerated one. Two values are equal where they are the same
///   as data: `1.50E1` and `15E0` are different floats, though the numbers are the same.
///   [`ValList::place_of`] tells which of them it is.
/// - `Text`, `Chars`: the text itself. Which characters it has is not asked here.
/// - `Name`: none, since a name takes the namespaces in scope.
///
/// The forms are those of XML Schema 1.0 Part 2, section 3; that all of a base's texts are taken, the bounds, and
/// what `Choice` compares are our own. The text is gone over a few times, never back.
///
/// # Errors
///
/// `AllocError` where memory is refused.
pub fn value_of(alloc: Global, kind: &Datatype, text: &Txt) -> Result<Option<Val>, AllocError>
    // the value of the text, exactly where it has one
    ensures value { IfOk result (λ v. option_map seen v ≡ value (represented kind.now) text.now) }
    // one that the datatype has
    ensures form { IfOk result (λ v. IfSome v (λ v. IsOf (represented kind.now) (seen v))) }
    // so that `canon` may be called on it
    ensures text { IfOk result (λ v. IfSome v (λ v. has_text (seen v) ≡ true)) }
    // its canonical text has it again
    ensures again { IfOk result (λ v. IfSome v (λ v. value (represented kind.now) (canonical (seen v)) ≡ Some (seen v))) }
{
    value_in(alloc, kind, text.as_str())
}

/// Whether a text has a value under a datatype: what [`value_of`] tells, without a copy of a text that is itself the
/// value.
///
/// # Errors
///
/// `AllocError` where memory is refused.
#[tactic(auto, unfolding(crate::specs::Values::value))]
pub fn has_value(alloc: Global, kind: &Datatype, text: &Txt) -> Result<bool, AllocError>
    ensures { IfOk result (λ has. has ≡ is_some (value (represented kind.now) text.now)) }
{
    match kind {
        Datatype::Text | Datatype::Chars(_) => Ok(true),
        Datatype::Name { prefixes: _ } => Ok(false),
        _ => Ok(value_of(alloc, kind, text)?.is_some()),
    }
}

/// The value of a text under a datatype, if it has one.
#[cycle(value)]
#[tactic(auto, unfolding(crate::specs::Values::value))]
fn value_in(alloc: Global, kind: &Datatype, text: &str) -> Result<Option<Val>, AllocError>
    ensures { IfOk result (λ v. option_map seen v ≡ value (represented kind.now) (chars text.now)) }
{
    match kind {
        Datatype::Text => Ok(Some(Val::Text(Txt::of(alloc, text)?))),
        Datatype::Chars(_) => Ok(Some(Val::Text(Txt::of(alloc, text)?))),
        Datatype::Name { prefixes: _ } => Ok(None),
        Datatype::List(item) => list(alloc, item, text),
        Datatype::Choice { base, values } => choice(alloc, base, values, trim(text)),
        _ => scalar(alloc, kind, trim(text)),
    }
}

/// The value that is a list of these.
fn whole(list: ValList) -> Val
    ensures { seen result ≡ items (values_of (vals list)) }
{
    Val::Items(list)
}

/// The list of the values of the words, if each has one and they are not too many.
#[cycle(value)]
fn list(alloc: Global, item: &Datatype, text: &str) -> Result<Option<Val>, AllocError>
    ensures { IfOk result (λ v. option_map seen v ≡ list_value (λ w. value (represented item.now) w) (chars text.now)) }
{
    let mut items = ValList::new(alloc);
    let mut rest = text;
    while let Some((word, after)) = next_word(rest) {
        if items.items.len() == MOST_ITEMS {
            return Ok(None);
        }
        let Some(value) = value_in(alloc, item, word)? else {
            return Ok(None);
        };
        items.push(value)?;
        rest = after;
    }
    Ok(Some(whole(items)))
}

/// The value of a trimmed text under the base, if it is one of these.
#[cycle(value)]
fn choice(
    alloc: Global,
    base: &Datatype,
    values: &ValList,
    text: &str,
) -> Result<Option<Val>, AllocError>
    ensures { IfOk result (λ v. option_map seen v ≡ chosen (vals values.now) (value (represented base.now) (chars text.now))) }
{
    let Some(value) = value_in(alloc, base, text)? else {
        return Ok(None);
    };
    if values.place_of(&value).is_some() {
        Ok(Some(value))
    } else {
        Ok(None)
    }
}
