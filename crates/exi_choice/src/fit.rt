ghost use Rattle.std.specs.Prelude.{◌≡◌, ◌<◌, ◌^◌, IfOk, IfSome, IsTrue, Some, None, true, false, map, length, if◌then◌else◌};
ghost use Rattle.exi_names.specs.Datatypes.{represented};
ghost use Rattle.exi_names.specs.Forms.{AreOctets, HasNoMinusZero, is_float, is_integer, is_small, is_wide};
ghost use Rattle.exi_names.specs.Moments.{is_year};
ghost use Rattle.exi_names.specs.Seen.{seen, values_of};
ghost use Rattle.exi_writing.specs.Contents.{are_items, has_string, is_item, text_of};
ghost use Rattle.exi_writing.specs.Pieces.{can_all_be_valued, can_be_spelled, can_be_valued};
ghost use Rattle.exi_names.specs.Datatypes.{boolean, text};
ghost use Rattle.exi_processing.specs.Handing.{rule_in};
ghost use Rattle.exi_choice.specs.Fitting.{IsPlainOf, declaring, fit_as, fit_for, fit_in, fitted, having, is_name, spelled_value, value_in};

use crate::declared::{Declared, declaration_of};
use crate::wanted::Valued;
use exi_gram::Book;
use exi_lexical::laws::written_is_read;
use exi_lexical::{canon, value_of};
use exi_moment::is_moment;
use exi_names::{Datatype, Moment, Txt, Val, Whole};
use exi_processing::{Content, Rule};
use exi_text::is_writable;
use std::alloc::{AllocError, Global};

/// What is written of an event's value.
#[derive(Debug, Drop)]
pub enum Fit {
    /// The value itself, if it has one.
    Own,
    /// Another: the one that its canonical text has there. Boxed, so that what is found stays small where it is none.
    Other(Box<Val>),
}

/// Whether a value is neither a list nor a name.
fn is_item(value: &Val) -> bool
    ensures { result ≡ is_item (seen value.now) }
{
    match value {
        Val::Items(_) | Val::Name(_) => false,
        Val::Text(_)
        | Val::Bool { .. }
        | Val::Int(_)
        | Val::Dec { .. }
        | Val::Flo { .. }
        | Val::Mom(_)
        | Val::Bin { .. } => true,
    }
}

/// Whether all these values are neither lists nor names.
fn are_items(values: &[Val]) -> bool
    ensures { result ≡ are_items (values_of (map seen values.now)) }
{
    for value in values {
        if !is_item(value) {
            return false;
        }
    }
    true
}

/// Whether a value has a text where a string is written.
fn has_string(value: &Val) -> bool
    ensures { result ≡ has_string (seen value.now) }
{
    match value {
        Val::Items(list) => are_items(list.items.as_slice()),
        _ => is_item(value),
    }
}

/// The text that stands for a value where a string is written, its canonical one.
///
/// # Errors
///
/// `AllocError` where memory is refused.
fn text_of(alloc: Global, value: &Val) -> Result<Option<Txt>, AllocError>
    ensures { IfOk result (λ text. text ≡ text_of (seen value.now)) }
{
    if !has_string(value) {
        return Ok(None);
    }
    let text = canon(alloc, value)?;
    Ok(Some(text))
}

/// Whether a text has a spelling: each of its characters is an XML character.
#[inline(always)]
fn can_be_spelled(text: &Txt) -> bool
    ensures { result ≡ can_be_spelled text.now }
{
    // A count is a word: no text has more characters than a length can tell.
    let _ = text.count();
    is_writable(text)
}

/// Whether each of these values has a spelling.
#[cycle(spelled)]
fn can_all_be_valued(values: &[Val]) -> bool
    ensures { result ≡ can_all_be_valued (values_of (map seen values.now)) }
{
    for value in values {
        if !can_be_valued(value) {
            return false;
        }
    }
    true
}

/// Whether a value has a spelling under its datatype: each character of its texts is an XML character.
#[cycle(spelled)]
fn can_be_valued(value: &Val) -> bool
    ensures { result ≡ can_be_valued (seen value.now) }
{
    match value {
        Val::Text(text) => can_be_spelled(text),
        Val::Bool { .. } | Val::Int(_) | Val::Dec { .. } | Val::Flo { .. } | Val::Mom(_) => true,
        Val::Bin { octets, .. } => {
            let _ = octets.as_slice().len();
            true
        }
        Val::Items(list) => can_all_be_valued(list.items.as_slice()),
        Val::Name(_) => false,
    }
}

/// Whether a number is one of so many from a least one on.
fn is_small(least: i128, count: u16, whole: Whole) -> bool
    ensures { result ≡ is_small least count whole }
{
    let start = least.unsigned_abs();
    let count = u128::from(count);
    if least >= 0 {
        !whole.minus && start <= whole.size && whole.size - start < count
    } else if whole.minus {
        whole.size <= start && start - whole.size < count
    } else {
        whole.size < count && start + whole.size < count
    }
}

/// Whether an integer fits 128 bits with a sign.
fn is_integer(whole: Whole) -> bool
    ensures { result ≡ is_integer whole }
{
    let most = 1u128 << 127;
    if whole.minus {
        whole.size <= most
    } else {
        whole.size < most
    }
}

/// Whether a float is a number, infinite, or not a number.
fn is_float(mantissa: i64, exponent: i16) -> bool
    ensures { result ≡ is_float mantissa exponent }
{
    if exponent == -16384 {
        (-1..=1).contains(&mantissa)
    } else {
        (-16383..=16383).contains(&exponent)
    }
}

/// What holds of each integer; the function does nothing.
fn integers_are(whole: Whole)
    ensures wide { is_wide whole ≡ true }
    ensures zero { HasNoMinusZero whole }
{
    let _ = whole.minus;
    let _ = whole.size;
}

/// What holds of each decimal; the function does nothing.
fn decimals_are(whole: u128, back: u128)
    ensures whole { whole < 2 ^ 128 }
    ensures back { back < 2 ^ 128 }
{
    let _ = whole;
    let _ = back;
}

/// What holds of all octets; the function does nothing.
fn octets_are(octets: &[u8])
    ensures { AreOctets octets.now }
{
    let _ = octets.len();
}

/// What holds of each date or time; the function does nothing.
fn moments_are(moment: Moment)
    ensures year { IsTrue (is_year moment.year) }
    ensures fraction { IfSome moment.fraction (λ digits. digits < 2 ^ 128) }
{
    let _ = moment.year;
    let _ = moment.fraction;
}

/// Whether a value is one of the datatype's own form, which its text has there again: neither a list, nor enumerated,
/// nor a name.
fn is_own(datatype: &Datatype, value: &Val) -> bool
    ensures { IsTrue result → IsPlainOf (represented datatype.now) (seen value.now) }
{
    match (datatype, value) {
        (Datatype::Text | Datatype::Chars(_), Val::Text(_)) => true,
        (Datatype::Small { least, count }, Val::Int(whole)) => {
            integers_are(*whole);
            is_small(*least, *count, *whole)
        }
        (Datatype::Unsigned, Val::Int(whole)) => {
            integers_are(*whole);
            !whole.minus
        }
        (Datatype::Integer, Val::Int(whole)) => {
            integers_are(*whole);
            is_integer(*whole)
        }
        (Datatype::Boolean { pattern }, Val::Bool { digit, .. }) => *pattern || !*digit,
        (Datatype::Binary { hex }, Val::Bin { hex: own, octets }) => {
            octets_are(octets.as_slice());
            *hex == *own
        }
        (Datatype::Decimal, Val::Dec { whole, back, .. }) => {
            decimals_are(*whole, *back);
            true
        }
        (Datatype::Float, Val::Flo { mantissa, exponent }) => is_float(*mantissa, *exponent),
        (Datatype::Moment(kind), Val::Mom(moment)) => {
            moments_are(*moment);
            moment.kind == *kind && is_moment(moment)
        }
        _ => false,
    }
}

/// What is written of a value under a datatype: the value that its canonical text has there, where it has one and that
/// has a spelling. A value of the datatype's own form is its own, and takes no memory.
///
/// # Errors
///
/// `AllocError` where memory is refused.
#[inline(never)]
fn fit_datatype(alloc: Global, datatype: &Datatype, value: &Val) -> Result<Option<Fit>, AllocError>
    ensures { IfOk result (λ f. fitted (seen value.now) f ≡ fit_for (represented datatype.now) (seen value.now)) }
{
    if is_own(datatype, value) {
        written_is_read();
        return Ok(own_fit(value));
    }
    let Some(text) = text_of(alloc, value)? else {
        return Ok(None);
    };
    let Some(found) = value_of(alloc, datatype, &text)? else {
        return Ok(None);
    };
    if !can_be_valued(&found) {
        return Ok(None);
    }
    Ok(Some(Fit::Other(Box::new(alloc, found)?)))
}

/// What is written of a value as a string: its canonical text.
///
/// # Errors
///
/// `AllocError` where memory is refused.
#[inline(never)]
fn fit_text(alloc: Global, value: &Val) -> Result<Option<Fit>, AllocError>
    ensures { IfOk result (λ f. fitted (seen value.now) f ≡ fit_for text (seen value.now)) }
{
    let Some(text) = text_of(alloc, value)? else {
        return Ok(None);
    };
    if !can_be_spelled(&text) {
        return Ok(None);
    }
    Ok(Some(Fit::Other(Box::new(alloc, Val::Text(text))?)))
}

/// What is written of a value as a string. A text is its own.
///
/// # Errors
///
/// `AllocError` where memory is refused.
#[inline(always)]
fn fit_string(alloc: Global, value: &Val) -> Result<Option<Fit>, AllocError>
    ensures { IfOk result (λ f. fitted (seen value.now) f ≡ fit_for text (seen value.now)) }
{
    if let Val::Text(_) = value {
        return Ok(own_fit(value));
    }
    fit_text(alloc, value)
}

/// What is written of a value of `xsi:nil`.
#[inline(never)]
fn fit_nil(alloc: Global, value: &Val) -> Result<Option<Fit>, AllocError>
    ensures { IfOk result (λ f. fitted (seen value.now) f ≡ fit_for (boolean false) (seen value.now)) }
{
    let datatype = Datatype::Boolean { pattern: false };
    fit_datatype(alloc, &datatype, value)
}

/// What is written of a value that names a type: a name alone.
fn fit_name(value: &Val) -> Option<Fit>
    ensures { fitted (seen value.now) result ≡ (if is_name (seen value.now) then Some (seen value.now) else None) }
{
    match value {
        Val::Name(_) => Some(Fit::Own),
        Val::Text(_)
        | Val::Bool { .. }
        | Val::Int(_)
        | Val::Dec { .. }
        | Val::Flo { .. }
        | Val::Mom(_)
        | Val::Bin { .. }
        | Val::Items(_) => None,
    }
}

/// What is written of a value that is represented so.
#[inline(always)]
fn fit_declared(
    alloc: Global,
    declared: Declared<'_>,
    value: &Val,
) -> Result<Option<Fit>, AllocError>
    ensures { IfOk result (λ f. fitted (seen value.now) f ≡ fit_as (declaring declared.entry) (seen value.now)) }
{
    match declared {
        Declared::Type => Ok(fit_name(value)),
        Declared::Nil => fit_nil(alloc, value),
        Declared::Datatype(None) => fit_string(alloc, value),
        Declared::Datatype(Some(datatype)) => fit_datatype(alloc, datatype, value),
    }
}

/// What is written of an event's value under a production of its kind; nothing where the value has no spelling there.
///
/// # Errors
///
/// `AllocError` where memory is refused.
#[inline(always)]
pub fn fit_on(
    alloc: Global,
    book: &Book,
    rule: Rule<'_>,
    valued: Valued<'_>,
) -> Result<Option<Fit>, AllocError>
    ensures { IfOk result (λ f. fitted (value_in (having valued.entry)) f ≡ fit_in book.now.schema (rule_in rule.entry).on (having valued.entry)) }
{
    match (rule.on, valued) {
        (Content::Attribute(_, valuing), Valued::Attribute { id, name, value }) => {
            let declared = declaration_of(book, valuing, rule.datatype, id, name);
            fit_declared(alloc, declared, value)
        }
        (Content::Characters, Valued::Characters(value)) => {
            fit_declared(alloc, Declared::Datatype(rule.datatype), value)
        }
        _ => Ok(Some(Fit::Own)),
    }
}

/// Whether a value has a spelling under its datatype, as most have: most short texts are looked at with no call.
#[inline(always)]
fn can_be_written(value: &Val) -> bool
    ensures { result ≡ can_be_valued (seen value.now) }
{
    match value {
        Val::Text(text) => can_be_spelled(text),
        _ => can_be_valued(value),
    }
}

/// The value itself, where it has a spelling.
#[inline(always)]
fn own_fit(value: &Val) -> Option<Fit>
    ensures { fitted (seen value.now) result ≡ spelled_value (Some (seen value.now)) }
{
    if can_be_written(value) {
        Some(Fit::Own)
    } else {
        None
    }
}
