//! All elements, attributes and groups of attributes that a schema declares.

ghost use Rattle.std.specs.Prelude.{◌≡◌, ◌++◌, IfOk, OnOk};
ghost use Rattle.xsd_declared.specs.Decls.{attribute_decl, attribute_group};
ghost use Rattle.xsd_declared.specs.Lists.{attribute_groups_of, attributes_of, element_at, elements_of, one_of};
ghost use Rattle.xsd_declared.specs.Walks.{AreTypes};
ghost use Rattle.xsd_places.specs.Kinds.{is_kind};
ghost use Rattle.xsd_places.specs.declared.kind.Kind.TheVariants as kind;

use crate::attributes::{attribute_decl, attribute_group};
use crate::elements::element_decl;
use crate::walks::{element_types, type_among};
use exi_gram::Items;
use std::alloc::{AllocError, Global};
use xsd_components::TypeAt;
use xsd_model::{AttributeDecl, AttributeGroup, ElementDecl};
use xsd_places::{Kind, Places, is_kind};

/// The element that is declared at a place, by the types of all.
fn element_at(
    alloc: Global,
    places: &Places<'_>,
    types: &[TypeAt],
    place: u32,
) -> Result<ElementDecl, AllocError>
    requires types { AreTypes places.now types.now }
    ensures { IfOk result (λ e. e ≡ element_at places.now place) }
{
    let of = type_among(alloc, places.schema(), types, place)?;
    element_decl(alloc, places, of, place)
}

/// Adds the element at a place, where one is declared.
fn push_element_at(
    alloc: Global,
    found: &mut Items<ElementDecl>,
    places: &Places<'_>,
    types: &[TypeAt],
    place: u32,
) -> Result<(), AllocError>
    requires types { AreTypes places.now types.now }
    ensures { OnOk result (found.new ≡ found.old ++ one_of (is_kind kind.Element places.now place) (element_at places.now place)) }
{
    if is_kind(Kind::Element, places.schema().document().nodes(), place) {
        found.push(element_at(alloc, places, types, place)?)?;
    }
    Ok(())
}

/// The elements that a schema declares, in the document's order.
///
/// # Errors
///
/// `AllocError` where memory is refused.
pub fn elements_of(alloc: Global, places: &Places<'_>) -> Result<Items<ElementDecl>, AllocError>
    ensures { IfOk result (λ l. l ≡ elements_of places.now) }
{
    let types = element_types(alloc, places.schema())?;
    let mut found = Items::new(alloc);
    for place in 0..places.schema().document().nodes().len() {
        push_element_at(alloc, &mut found, places, types.as_slice(), place as u32)?;
    }
    Ok(found)
}

/// Adds the attribute at a place, where one is declared.
fn push_attribute_decl(
    alloc: Global,
    found: &mut Items<AttributeDecl>,
    places: &Places<'_>,
    place: u32,
) -> Result<(), AllocError>
    ensures { OnOk result (found.new ≡ found.old ++ one_of (is_kind kind.Attribute places.now place) (attribute_decl places.now place)) }
{
    if is_kind(Kind::Attribute, places.schema().document().nodes(), place) {
        found.push(attribute_decl(alloc, places, place)?)?;
    }
    Ok(())
}

/// The attributes that a schema declares, in the document's order.
///
/// # Errors
///
/// `AllocError` where memory is refused.
pub fn attributes_of(alloc: Global, places: &Places<'_>) -> Result<Items<AttributeDecl>, AllocError>
    ensures { IfOk result (λ l. l ≡ attributes_of places.now) }
{
    let mut found = Items::new(alloc);
    for place in 0..places.schema().document().nodes().len() {
        push_attribute_decl(alloc, &mut found, places, place as u32)?;
    }
    Ok(found)
}

/// Adds the group of attributes at a place, where one is declared.
fn push_attribute_group(
    alloc: Global,
    found: &mut Items<AttributeGroup>,
    places: &Places<'_>,
    place: u32,
) -> Result<(), AllocError>
    ensures { OnOk result (found.new ≡ found.old ++ one_of (is_kind kind.AttributeGroup places.now place) (attribute_group places.now place)) }
{
    if is_kind(
        Kind::AttributeGroup,
        places.schema().document().nodes(),
        place,
    ) {
        found.push(attribute_group(alloc, places, place)?)?;
    }
    Ok(())
}

/// The groups of attributes that a schema declares, in the document's order.
///
/// # Errors
///
/// `AllocError` where memory is refused.
pub fn attribute_groups_of(
    alloc: Global,
    places: &Places<'_>,
) -> Result<Items<AttributeGroup>, AllocError>
    ensures { IfOk result (λ l. l ≡ attribute_groups_of places.now) }
{
    let mut found = Items::new(alloc);
    for place in 0..places.schema().document().nodes().len() {
        push_attribute_group(alloc, &mut found, places, place as u32)?;
    }
    Ok(found)
}
