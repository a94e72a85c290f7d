//! The groups of attributes and the head of a substitution group that an element names.

ghost use Rattle.std.specs.Prelude.{◌≡◌, IfOk};
ghost use Rattle.xsd_derivations.specs.Derivations.{attribute_groups_named, head_named};

use std::alloc::{AllocError, Global};
use xsd_components::Schema;
use xsd_nodes::{AttributeName, Part, text_at};

/// The places of the groups of attributes that the element at a place names.
///
/// # Errors
///
/// `AllocError` where memory is refused.
pub fn attribute_groups_named(
    alloc: Global,
    schema: &Schema<'_>,
    place: u32,
) -> Result<Vec<Option<u32>>, AllocError>
    ensures { IfOk result (λ v. v.items ≡ attribute_groups_named schema.now place) }
{
    let held = schema
        .document()
        .children(alloc, &[Part::AttributeGroup], place)?;
    let mut found = Vec::new(alloc);
    for child in held.as_slice() {
        let kind = [Part::AttributeGroup];
        found.push(schema.text_names(alloc, &kind, *child, AttributeName::Ref)?)?;
    }
    Ok(found)
}

/// The place of the head of the substitution group of the element at a place, where it names one.
///
/// # Errors
///
/// `AllocError` where memory is refused.
pub fn head_named(
    alloc: Global,
    schema: &Schema<'_>,
    place: u32,
) -> Result<Vec<Option<u32>>, AllocError>
    ensures { IfOk result (λ v. v.items ≡ head_named schema.now place) }
{
    let mut found = Vec::new(alloc);
    if let Some(text) = text_at(
        schema.document().nodes(),
        AttributeName::SubstitutionGroup,
        place,
    ) {
        found.push(schema.named_component(alloc, &[Part::Element], place, text)?)?;
    }
    Ok(found)
}
