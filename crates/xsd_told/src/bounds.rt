//! How often a particle may stand.

ghost use Rattle.std.specs.Prelude.{◌≡◌, IfOk, codes};
ghost use Rattle.std.specs.Str.{bytes_eq};
ghost use Rattle.exi_lexical.specs.Spaces.{trimmed};
ghost use Rattle.xsd_nodes.specs.Nodes.{text_at};
ghost use Rattle.xsd_nodes.specs.declared.attribute_name.AttributeName.TheVariants as attribute;
ghost use Rattle.xsd_told.specs.Told.{are_bad_bounds, bounded, has_bad_bounds, is_above, most_in};

use exi_names::Txt;
use std::alloc::{AllocError, Global};
use xsd_components::Schema;
use xsd_contents::number_at;
use xsd_names::{letters_of, text_of, trim};
use xsd_nodes::{AttributeName, is_text, text_at};
use xsd_places::is_particle;

/// Whether the word is `unbounded`.
fn is_unbounded_word(word: &Txt) -> bool
    ensures { result ≡ bytes_eq word.now (codes "unbounded") }
{
    is_text(word, "unbounded")
}

/// Whether the text is `unbounded` between white space.
fn is_unbounded(alloc: Global, text: &Txt) -> Result<bool, AllocError>
    ensures { IfOk result (λ b. b ≡ bytes_eq (trimmed text.now) (codes "unbounded")) }
{
    let letters = letters_of(alloc, text)?;
    let word = text_of(alloc, trim(letters.as_slice()))?;
    Ok(is_unbounded_word(&word))
}

/// So often at most, where it is told.
fn bounded(told: Option<u128>) -> Option<Option<u128>>
    ensures { result ≡ bounded told }
{
    match told {
        Some(most) => Some(Some(most)),
        None => None,
    }
}

/// How often an element may stand at most: `Some(None)` for any number of times, and nothing where the attribute tells neither.
///
/// # Errors
///
/// `AllocError` where memory is refused.
pub fn most_at(
    alloc: Global,
    schema: &Schema<'_>,
    place: u32,
) -> Result<Option<Option<u128>>, AllocError>
    ensures { IfOk result (λ m. m ≡ most_in (text_at schema.now attribute.MaxOccurs place)) }
{
    match text_at(schema.document().nodes(), AttributeName::MaxOccurs, place) {
        Some(text) => {
            if is_unbounded(alloc, text)? {
                Ok(Some(None))
            } else {
                Ok(bounded(number_at(alloc, schema, AttributeName::MaxOccurs, place)?))
            }
        }
        None => Ok(Some(Some(1))),
    }
}

/// Whether the least is above the most.
fn is_above(least: u128, most: Option<u128>) -> bool
    ensures { result ≡ is_above least most }
{
    match most {
        Some(most) => most < least,
        None => false,
    }
}

/// Whether one of the bounds is none, or the least is above the most.
fn are_bad_bounds(least: Option<u128>, most: Option<Option<u128>>) -> bool
    ensures { result ≡ are_bad_bounds least most }
{
    match (least, most) {
        (Some(least), Some(most)) => is_above(least, most),
        (Some(_), None) => true,
        (None, _) => true,
    }
}

/// Whether the bounds of a particle are none, or the least is above the most.
///
/// # Errors
///
/// `AllocError` where memory is refused.
pub fn has_bad_bounds(alloc: Global, schema: &Schema<'_>, place: u32) -> Result<bool, AllocError>
    ensures { IfOk result (λ b. b ≡ has_bad_bounds schema.now place) }
{
    if !is_particle(schema.document().nodes(), place) {
        return Ok(false);
    }
    let least = number_at(alloc, schema, AttributeName::MinOccurs, place)?;
    let most = most_at(alloc, schema, place)?;
    Ok(are_bad_bounds(least, most))
}
