//! The values of attributes that are truth values or numbers.

ghost use Rattle.std.specs.Prelude.{◌≡◌, IfOk, Some};
ghost use Rattle.exi_names.specs.Seen.{seen};
ghost use Rattle.xsd_contents.specs.Contents.{counted, is_truth, is_yes, number_in};
ghost use Rattle.xsd_nodes.specs.Nodes.{text_at};

use exi_lexical::value_of;
use exi_names::{Datatype, Txt, Val};
use std::alloc::{AllocError, Global};
use xsd_components::Schema;
use xsd_nodes::{AttributeName, text_at};

/// Whether the value is true.
fn is_truth(value: &Val) -> bool
    ensures { result ≡ is_truth (Some (seen value.now)) }
{
    match value {
        Val::Bool { yes, .. } => *yes,
        Val::Text(_)
        | Val::Int(_)
        | Val::Dec { .. }
        | Val::Flo { .. }
        | Val::Mom(_)
        | Val::Bin { .. }
        | Val::Items(_)
        | Val::Name(_) => false,
    }
}

/// Whether the text has the boolean value true.
///
/// # Errors
///
/// `AllocError` where memory is refused.
pub fn is_yes(alloc: Global, text: &Txt) -> Result<bool, AllocError>
    ensures { IfOk result (λ b. b ≡ is_yes (Some text.now)) }
{
    match value_of(alloc, &Datatype::Boolean { pattern: false }, text)? {
        Some(value) => Ok(is_truth(&value)),
        None => Ok(false),
    }
}

/// The magnitude of the value, where it is an integer.
fn counted(value: &Val) -> Option<u128>
    ensures { result ≡ counted (Some (seen value.now)) }
{
    match value {
        Val::Int(number) => Some(number.size),
        Val::Text(_)
        | Val::Bool { .. }
        | Val::Dec { .. }
        | Val::Flo { .. }
        | Val::Mom(_)
        | Val::Bin { .. }
        | Val::Items(_)
        | Val::Name(_) => None,
    }
}

/// The number that an attribute tells: 1 where the element has no such attribute, and nothing where it tells no number.
///
/// # Errors
///
/// `AllocError` where memory is refused.
pub fn number_at(
    alloc: Global,
    schema: &Schema<'_>,
    attribute: AttributeName,
    place: u32,
) -> Result<Option<u128>, AllocError>
    ensures { IfOk result (λ n. n ≡ number_in (text_at schema.now attribute place)) }
{
    match text_at(schema.document().nodes(), attribute, place) {
        Some(text) => match value_of(alloc, &Datatype::Unsigned, text)? {
            Some(value) => Ok(counted(&value)),
            None => Ok(None),
        },
        None => Ok(Some(1)),
    }
}
