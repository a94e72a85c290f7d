//! What an element names and is not there.

ghost use Rattle.std.specs.Prelude.{◌≡◌, IfOk};
ghost use Rattle.xsd_told.specs.Told.{lacks_head, names_none, names_no_simple_type, names_no_type, names_no_type_at_all, refers_to_missing, refers_to_none_of};

use std::alloc::{AllocError, Global};
use xsd_components::Schema;
use xsd_nodes::{AttributeName, Part, is_at, is_global, text_at};

/// Whether the element at a place names a type that is not there.
fn names_no_type_at_all(alloc: Global, schema: &Schema<'_>, place: u32) -> Result<bool, AllocError>
    ensures { IfOk result (λ b. b ≡ names_no_type_at_all schema.now place) }
{
    match text_at(schema.document().nodes(), AttributeName::Type, place) {
        Some(text) => Ok(schema.named_type(alloc, place, text)?.is_none()),
        None => Ok(false),
    }
}

/// Whether the element at a place names a simple type that is not there.
fn names_no_simple_type(alloc: Global, schema: &Schema<'_>, place: u32) -> Result<bool, AllocError>
    ensures { IfOk result (λ b. b ≡ names_no_simple_type schema.now place) }
{
    match text_at(schema.document().nodes(), AttributeName::Type, place) {
        Some(text) => {
            let found = schema.named_type(alloc, place, text)?;
            Ok(schema.simple_only(found).is_none())
        }
        None => Ok(false),
    }
}

/// Whether an element names a type that is not there, or an attribute a simple type.
///
/// # Errors
///
/// `AllocError` where memory is refused.
pub fn names_no_type(alloc: Global, schema: &Schema<'_>, place: u32) -> Result<bool, AllocError>
    ensures { IfOk result (λ b. b ≡ names_no_type schema.now place) }
{
    let nodes = schema.document().nodes();
    if is_at(nodes, Part::Element, place) {
        names_no_type_at_all(alloc, schema, place)
    } else if is_at(nodes, Part::Attribute, place) {
        names_no_simple_type(alloc, schema, place)
    } else {
        Ok(false)
    }
}

/// Whether the element at a place names by an attribute a component of these parts that is not there.
fn names_none(
    alloc: Global,
    schema: &Schema<'_>,
    kind: &[Part],
    attribute: AttributeName,
    place: u32,
) -> Result<bool, AllocError>
    ensures { IfOk result (λ b. b ≡ names_none schema.now kind.now attribute place) }
{
    match text_at(schema.document().nodes(), attribute, place) {
        Some(text) => Ok(schema.named_component(alloc, kind, place, text)?.is_none()),
        None => Ok(false),
    }
}

/// Whether the element, attribute or group at a place refers to a component that is not there.
fn refers_to_none_of(alloc: Global, schema: &Schema<'_>, place: u32) -> Result<bool, AllocError>
    ensures { IfOk result (λ b. b ≡ refers_to_none_of schema.now place) }
{
    let nodes = schema.document().nodes();
    if is_at(nodes, Part::Element, place) {
        names_none(alloc, schema, &[Part::Element], AttributeName::Ref, place)
    } else if is_at(nodes, Part::Attribute, place) {
        names_none(alloc, schema, &[Part::Attribute], AttributeName::Ref, place)
    } else if is_at(nodes, Part::Group, place) {
        names_none(alloc, schema, &[Part::Group], AttributeName::Ref, place)
    } else if is_at(nodes, Part::AttributeGroup, place) {
        names_none(
            alloc,
            schema,
            &[Part::AttributeGroup],
            AttributeName::Ref,
            place,
        )
    } else {
        Ok(false)
    }
}

/// Whether an element, attribute or group within a type or a group refers to a component that is not there.
///
/// # Errors
///
/// `AllocError` where memory is refused.
pub fn refers_to_missing(alloc: Global, schema: &Schema<'_>, place: u32) -> Result<bool, AllocError>
    ensures { IfOk result (λ b. b ≡ refers_to_missing schema.now place) }
{
    if is_global(schema.document().nodes(), place) {
        return Ok(false);
    }
    refers_to_none_of(alloc, schema, place)
}

/// Whether an element names a head of its substitution group that is not there.
///
/// # Errors
///
/// `AllocError` where memory is refused.
pub fn lacks_head(alloc: Global, schema: &Schema<'_>, place: u32) -> Result<bool, AllocError>
    ensures { IfOk result (λ b. b ≡ lacks_head schema.now place) }
{
    let nodes = schema.document().nodes();
    if is_at(nodes, Part::Element, place) && is_global(nodes, place) {
        names_none(
            alloc,
            schema,
            &[Part::Element],
            AttributeName::SubstitutionGroup,
            place,
        )
    } else {
        Ok(false)
    }
}
