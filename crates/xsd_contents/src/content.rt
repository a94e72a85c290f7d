//! Whether a content is mixed, and whether it is empty.

ghost use Rattle.std.specs.Prelude.{◌≡◌, IfOk, option_copied};
ghost use Rattle.xsd_contents.specs.Contents.{is_bare, is_empty, is_empty_model, is_empty_particle, is_mixed, is_number, leaves_base, model_groups, number_in, particles, text_of_holder, told_before};
ghost use Rattle.xsd_nodes.specs.Nodes.{parent_at, parent_of, text_at};
ghost use Rattle.xsd_nodes.specs.declared.attribute_name.AttributeName.TheVariants as attribute;

use crate::words::{is_yes, number_at};
use exi_names::Txt;
use std::alloc::{AllocError, Global};
use xsd_components::Schema;
use xsd_nodes::{AttributeName, Part, is_among_at, is_at, parent_at, text_at};
use xsd_tree::Node;

/// The text of the attribute `mixed` of the element at a place, where there is such a place.
fn mixed_at<'a>(nodes: &'a [Node], place: Option<u32>) -> Option<&'a Txt>
    ensures { option_copied result ≡ text_of_holder nodes.now attribute.Mixed place }
{
    match place {
        Some(place) => text_at(nodes, AttributeName::Mixed, place),
        None => None,
    }
}

/// The place of the element that holds the one at a place, where there is such a place.
fn parent_of(nodes: &[Node], place: Option<u32>) -> Option<u32>
    ensures { result ≡ parent_of nodes.now place }
{
    match place {
        Some(place) => parent_at(nodes, place),
        None => None,
    }
}

/// The attribute `mixed` for the restriction or extension of a complexContent: that of the complexContent counts before that of
/// the complexType.
fn mixed_told<'a>(nodes: &'a [Node], place: u32) -> Option<&'a Txt>
    ensures { option_copied result
        ≡ told_before (text_of_holder nodes.now attribute.Mixed (parent_at nodes.now place)) (text_of_holder nodes.now attribute.Mixed (parent_of nodes.now (parent_at nodes.now place))) }
{
    let holder = parent_at(nodes, place);
    match mixed_at(nodes, holder) {
        Some(text) => Some(text),
        None => mixed_at(nodes, parent_of(nodes, holder)),
    }
}

/// Whether text may stand among the elements of the restriction or extension of a complexContent.
///
/// # Errors
///
/// `AllocError` where memory is refused.
pub fn is_mixed(alloc: Global, schema: &Schema<'_>, place: u32) -> Result<bool, AllocError>
    ensures { IfOk result (λ b. b ≡ is_mixed schema.now place) }
{
    match mixed_told(schema.document().nodes(), place) {
        Some(text) => is_yes(alloc, text),
        None => Ok(false),
    }
}

/// The elements of which a particle is one.
fn particles() -> &'static [Part]
    ensures { result.now ≡ particles }
{
    &[
        Part::Element,
        Part::Group,
        Part::Choice,
        Part::Sequence,
        Part::Any,
        Part::All,
    ]
}

/// The particles that a type or a derivation can hold.
fn model_groups() -> &'static [Part]
    ensures { result.now ≡ model_groups }
{
    &[Part::Group, Part::All, Part::Choice, Part::Sequence]
}

/// Whether no particle stands within.
fn is_bare(schema: &Schema<'_>, place: u32) -> bool
    ensures { result ≡ is_bare schema.now place }
{
    schema.document().child(particles(), place).is_none()
}

/// Whether a number that an attribute gives is 0.
fn is_zero(
    alloc: Global,
    schema: &Schema<'_>,
    name: AttributeName,
    place: u32,
) -> Result<bool, AllocError>
    ensures { IfOk result (λ b. b ≡ is_number 0 (number_in (text_at schema.now name place))) }
{
    match number_at(alloc, schema, name, place)? {
        Some(number) => Ok(number == 0),
        None => Ok(false),
    }
}

/// Whether this is left out, a sequence of nothing, or a choice of nothing that may be left out.
fn is_empty_model(alloc: Global, schema: &Schema<'_>, place: u32) -> Result<bool, AllocError>
    ensures { IfOk result (λ b. b ≡ is_empty_model schema.now place) }
{
    let nodes = schema.document().nodes();
    if is_zero(alloc, schema, AttributeName::MaxOccurs, place)? {
        return Ok(true);
    }
    if is_among_at(nodes, &[Part::Sequence, Part::All], place) {
        return Ok(is_bare(schema, place));
    }
    if is_at(nodes, Part::Choice, place) && is_bare(schema, place) {
        return is_zero(alloc, schema, AttributeName::MinOccurs, place);
    }
    Ok(false)
}

/// Whether a type, a restriction or an extension has no content of its own.
///
/// # Errors
///
/// `AllocError` where memory is refused.
pub fn is_empty(alloc: Global, schema: &Schema<'_>, place: u32) -> Result<bool, AllocError>
    ensures { IfOk result (λ b. b ≡ is_empty schema.now place) }
{
    match schema.document().child(model_groups(), place) {
        Some(place) => is_empty_model(alloc, schema, place),
        None => Ok(true),
    }
}

/// Whether an extension leaves the content of its base as it is.
///
/// # Errors
///
/// `AllocError` where memory is refused.
pub fn leaves_base(alloc: Global, schema: &Schema<'_>, place: u32) -> Result<bool, AllocError>
    ensures { IfOk result (λ b. b ≡ leaves_base schema.now place) }
{
    if is_empty(alloc, schema, place)? {
        Ok(!is_mixed(alloc, schema, place)?)
    } else {
        Ok(false)
    }
}
