//! The types that a derivation names or holds.

ghost use Rattle.std.specs.Prelude.{◌≡◌, [], ◌∷◌, IfOk};
ghost use Rattle.xsd_components.specs.References.{base};
ghost use Rattle.xsd_derivations.specs.Derivations.{derived_from, derived_in, inline_in};

use crate::union_members::members;
use std::alloc::{AllocError, Global};
use xsd_components::{Schema, TypeAt};
use xsd_nodes::{Part, holder, is_at, is_part};

/// One type, or none where it is not there.
fn one(alloc: Global, of: Option<TypeAt>) -> Result<Vec<Option<TypeAt>>, AllocError>
    ensures { IfOk result (λ v. v.items ≡ of ∷ []) }
{
    let mut found = Vec::new(alloc);
    found.push(of)?;
    Ok(found)
}

/// The types that a restriction names or holds.
fn restricted(
    alloc: Global,
    schema: &Schema<'_>,
    place: u32,
) -> Result<Vec<Option<TypeAt>>, AllocError>
    ensures { IfOk result (λ v. v.items ≡ base schema.now place ∷ inline_in schema.now place) }
{
    let base = schema.base(alloc, place)?;
    let mut found = one(alloc, base)?;
    if is_part(
        Part::SimpleContent,
        holder(schema.document().nodes(), place),
    ) {
        if let Some(inline) = schema.inline(place) {
            found.push(Some(inline))?;
        }
    }
    Ok(found)
}

/// The types that the restriction, extension, list or union at a place names or holds.
fn derived_in(
    alloc: Global,
    schema: &Schema<'_>,
    place: u32,
) -> Result<Vec<Option<TypeAt>>, AllocError>
    ensures { IfOk result (λ v. v.items ≡ derived_in schema.now place) }
{
    let nodes = schema.document().nodes();
    if is_at(nodes, Part::Restriction, place) {
        restricted(alloc, schema, place)
    } else if is_at(nodes, Part::Extension, place) {
        one(alloc, schema.base(alloc, place)?)
    } else if is_at(nodes, Part::List, place) {
        one(alloc, schema.item(alloc, place)?)
    } else if is_at(nodes, Part::Union, place) {
        members(alloc, schema, place)
    } else {
        Ok(Vec::new(alloc))
    }
}

/// The types that a derivation names or holds, where there is one; nothing stands for one that is not there.
///
/// # Errors
///
/// `AllocError` where memory is refused.
pub fn derived_from(
    alloc: Global,
    schema: &Schema<'_>,
    derivation: Option<u32>,
) -> Result<Vec<Option<TypeAt>>, AllocError>
    ensures { IfOk result (λ v. v.items ≡ derived_from schema.now derivation) }
{
    match derivation {
        Some(place) => derived_in(alloc, schema, place),
        None => Ok(Vec::new(alloc)),
    }
}
