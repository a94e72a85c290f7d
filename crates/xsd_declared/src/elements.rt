//! The elements that a schema declares.

ghost use Rattle.std.specs.Prelude.{◌≡◌, IfOk, IfSome, ◌<◌, length};
ghost use Rattle.xsd_components.specs.References.{at_node, type_parts};
ghost use Rattle.xsd_contents.specs.Contents.{is_yes};
ghost use Rattle.xsd_declared.specs.Decls.{element_decl, element_meant, element_type, event_at, head_at, head_place, told_type, type_step};
ghost use Rattle.xsd_nodes.specs.Nodes.{child, text_at};
ghost use Rattle.xsd_nodes.specs.declared.attribute_name.AttributeName.TheVariants as attribute;
ghost use Rattle.xsd_places.specs.Kinds.{place_of};

use crate::names::declared_name;
use crate::type_step::TypeStep;
use std::alloc::{AllocError, Global};
use xsd_builtins::ANY_TYPE;
use xsd_components::{Schema, TypeAt};
use xsd_contents::is_yes;
use xsd_model::ElementDecl;
use xsd_nodes::{AttributeName, Part, is_global, text_at};
use xsd_places::{Kind, Places, refers};
use xsd_tree::Node;

/// The number of the start of the element at a place among the document's events.
pub fn event_at(nodes: &[Node], place: u32) -> u64
    ensures { result ≡ event_at nodes.now place }
{
    match nodes.get(place as usize) {
        Some(node) => node.event,
        None => 0,
    }
}

/// The head of the substitution group of the element at a place, which has to stand directly within the schema.
///
/// # Errors
///
/// `AllocError` where memory is refused.
pub fn head_at(alloc: Global, schema: &Schema<'_>, place: u32) -> Result<Option<u32>, AllocError>
    ensures { IfOk result (λ h. h ≡ head_at schema.now place) }
{
    if is_global(schema.document().nodes(), place) {
        let kind = [Part::Element];
        schema.text_names(alloc, &kind, place, AttributeName::SubstitutionGroup)
    } else {
        Ok(None)
    }
}

/// The type that stands within the element at a place.
fn type_within(schema: &Schema<'_>, place: u32) -> Option<TypeAt>
    ensures { result ≡ at_node (child schema.now type_parts place) }
{
    match schema
        .document()
        .child(&[Part::SimpleType, Part::ComplexType], place)
    {
        Some(place) => Some(TypeAt::Node(place)),
        None => None,
    }
}

/// The type that the element or attribute at a place names, or else the one that stands within it.
///
/// # Errors
///
/// `AllocError` where memory is refused.
pub fn told_type(
    alloc: Global,
    schema: &Schema<'_>,
    place: u32,
) -> Result<Option<TypeAt>, AllocError>
    ensures { IfOk result (λ t. t ≡ told_type schema.now place) }
{
    match text_at(schema.document().nodes(), AttributeName::Type, place) {
        Some(text) => schema.named_type(alloc, place, text),
        None => Ok(type_within(schema, place)),
    }
}

/// What the element at a place tells of its type.
pub(crate) fn type_step(
    alloc: Global,
    schema: &Schema<'_>,
    place: u32,
) -> Result<TypeStep, AllocError>
    ensures { IfOk result (λ s. s ≡ type_step schema.now place) }
{
    if let Some(of) = told_type(alloc, schema, place)? {
        return Ok(TypeStep::Ends(of));
    }
    match head_at(alloc, schema, place)? {
        Some(head) => Ok(TypeStep::Goes(head)),
        None => Ok(TypeStep::Ends(TypeAt::Built(ANY_TYPE))),
    }
}

/// The type of the element at a place: its own, or else that of the head of its substitution group (XML Schema 1.0 Part 1,
/// section 3.3.2). Where the heads lead to an element twice, it is `xs:anyType`.
///
/// # Errors
///
/// `AllocError` where memory is refused.
pub(crate) fn element_type(
    alloc: Global,
    schema: &Schema<'_>,
    place: u32,
) -> Result<TypeAt, AllocError>
    ensures { IfOk result (λ t. t ≡ element_type schema.now place) }
{
    let mut at = place;
    for _ in 0..schema.document().nodes().len() + 1 {
        match type_step(alloc, schema, at)? {
            TypeStep::Ends(found) => return Ok(found),
            TypeStep::Goes(head) => at = head,
        }
    }
    Ok(TypeAt::Built(ANY_TYPE))
}

/// The place of the head of the substitution group of the element at a place, among the elements.
fn head_place(alloc: Global, places: &Places<'_>, place: u32) -> Result<Option<u32>, AllocError>
    ensures { IfOk result (λ h. h ≡ head_place places.now place) }
{
    match head_at(alloc, places.schema(), place)? {
        Some(head) => Ok(Some(places.place(Kind::Element, head))),
        None => Ok(None),
    }
}

/// Whether `nillable` is true for the element at a place.
fn is_nillable(alloc: Global, nodes: &[Node], place: u32) -> Result<bool, AllocError>
    ensures { IfOk result (λ b. b ≡ is_yes (text_at nodes.now attribute.Nillable place)) }
{
    match text_at(nodes, AttributeName::Nillable, place) {
        Some(text) => is_yes(alloc, text),
        None => Ok(false),
    }
}

/// The element that is declared at a place and has the type `of`.
///
/// # Errors
///
/// `AllocError` where memory is refused.
pub fn element_decl(
    alloc: Global,
    places: &Places<'_>,
    of: TypeAt,
    place: u32,
) -> Result<ElementDecl, AllocError>
    ensures { IfOk result (λ e. e ≡ element_decl places.now of place) }
{
    let nodes = places.schema().document().nodes();
    Ok(ElementDecl {
        name: declared_name(alloc, nodes, AttributeName::ElementFormDefault, place)?,
        of: places.place_of_type(of),
        nillable: is_nillable(alloc, nodes, place)?,
        global: is_global(nodes, place),
        head: head_place(alloc, places, place)?,
        event: event_at(nodes, place),
    })
}

/// The place of the element that the one at a place refers to or is; 0 where it refers to none that is there.
///
/// # Errors
///
/// `AllocError` where memory is refused.
pub fn element_meant(alloc: Global, schema: &Schema<'_>, place: u32) -> Result<u32, AllocError>
    ensures { IfOk result (λ p. p ≡ element_meant schema.now place) }
{
    if !refers(schema.document().nodes(), place) {
        return Ok(place);
    }
    match schema.text_names(alloc, &[Part::Element], place, AttributeName::Ref)? {
        Some(found) => Ok(found),
        None => Ok(0),
    }
}
