//! The attributes that a schema declares, and what types and groups say of them.

ghost use Rattle.std.specs.Prelude.{◌≡◌, IfOk};
ghost use Rattle.xsd_declared.specs.Decls.{attribute_decl, attribute_group, attribute_meant, attribute_type, group_meant, use_at, uses_at};

use crate::elements::{event_at, told_type};
use crate::names::declared_name;
use exi_gram::Items;
use std::alloc::{AllocError, Global};
use xsd_builtins::ANY_SIMPLE;
use xsd_components::{Schema, TypeAt};
use xsd_model::{AttributeDecl, AttributeGroup, AttributeUse};
use xsd_nodes::{AttributeName, Part, is_at, is_global};
use xsd_places::{Kind, Places, is_prohibited, is_required, refers};

/// The type of the attribute at a place: where it tells none, `xs:anySimpleType`.
fn attribute_type(alloc: Global, schema: &Schema<'_>, place: u32) -> Result<TypeAt, AllocError>
    ensures { IfOk result (λ t. t ≡ attribute_type schema.now place) }
{
    match told_type(alloc, schema, place)? {
        Some(of) => Ok(of),
        None => Ok(TypeAt::Built(ANY_SIMPLE)),
    }
}

/// The attribute that is declared at a place (XML Schema 1.0 Part 1, section 3.2.2).
///
/// # Errors
///
/// `AllocError` where memory is refused.
pub fn attribute_decl(
    alloc: Global,
    places: &Places<'_>,
    place: u32,
) -> Result<AttributeDecl, AllocError>
    ensures { IfOk result (λ a. a ≡ attribute_decl places.now place) }
{
    let nodes = places.schema().document().nodes();
    let of = attribute_type(alloc, places.schema(), place)?;
    Ok(AttributeDecl {
        name: declared_name(alloc, nodes, AttributeName::AttributeFormDefault, place)?,
        of: places.place_of_type(of),
        global: is_global(nodes, place),
        event: event_at(nodes, place),
    })
}

/// The place of the attribute that the one at a place refers to or is; 0 where it refers to none that is there.
fn attribute_meant(alloc: Global, schema: &Schema<'_>, place: u32) -> Result<u32, AllocError>
    ensures { IfOk result (λ p. p ≡ attribute_meant schema.now place) }
{
    if !refers(schema.document().nodes(), place) {
        return Ok(place);
    }
    match schema.text_names(alloc, &[Part::Attribute], place, AttributeName::Ref)? {
        Some(found) => Ok(found),
        None => Ok(0),
    }
}

/// The place of the group of attributes that the element at a place refers to; 0 where it refers to none that is there.
fn group_meant(alloc: Global, schema: &Schema<'_>, place: u32) -> Result<u32, AllocError>
    ensures { IfOk result (λ p. p ≡ group_meant schema.now place) }
{
    match schema.text_names(alloc, &[Part::AttributeGroup], place, AttributeName::Ref)? {
        Some(found) => Ok(found),
        None => Ok(0),
    }
}

/// What the attribute or the group of attributes at a place, within a type or group, says of attributes (XML Schema 1.0 Part 1,
/// section 3.2.2).
///
/// # Errors
///
/// `AllocError` where memory is refused.
pub fn use_at(alloc: Global, places: &Places<'_>, place: u32) -> Result<AttributeUse, AllocError>
    ensures { IfOk result (λ u. u ≡ use_at places.now place) }
{
    let schema = places.schema();
    let nodes = schema.document().nodes();
    if is_at(nodes, Part::AttributeGroup, place) {
        let group = group_meant(alloc, schema, place)?;
        return Ok(AttributeUse::Group(places.place(Kind::AttributeGroup, group)));
    }
    let meant = attribute_meant(alloc, schema, place)?;
    if is_prohibited(nodes, place) {
        let name = declared_name(alloc, nodes, AttributeName::AttributeFormDefault, meant)?;
        Ok(AttributeUse::Prohibited(name))
    } else {
        Ok(AttributeUse::Use {
            attribute: places.place(Kind::Attribute, meant),
            required: is_required(nodes, place),
        })
    }
}

/// What the element at a place says of the attributes that it holds, in the document's order.
///
/// # Errors
///
/// `AllocError` where memory is refused.
pub fn uses_at(
    alloc: Global,
    places: &Places<'_>,
    place: u32,
) -> Result<Items<AttributeUse>, AllocError>
    ensures { IfOk result (λ l. l ≡ uses_at places.now place) }
{
    let parts = [Part::Attribute, Part::AttributeGroup];
    let held = places.schema().document().children(alloc, &parts, place)?;
    let mut uses = Items::new(alloc);
    for child in held.as_slice() {
        uses.push(use_at(alloc, places, *child)?)?;
    }
    Ok(uses)
}

/// The group of attributes at a place (XML Schema 1.0 Part 1, section 3.6.2).
///
/// # Errors
///
/// `AllocError` where memory is refused.
pub fn attribute_group(
    alloc: Global,
    places: &Places<'_>,
    place: u32,
) -> Result<AttributeGroup, AllocError>
    ensures { IfOk result (λ g. g ≡ attribute_group places.now place) }
{
    Ok(AttributeGroup {
        uses: uses_at(alloc, places, place)?,
    })
}
