//! What is wrong with an element, as far as it can be told from the element and what it names.

ghost use Rattle.std.specs.Prelude.{◌≡◌, IfOk};
ghost use Rattle.xsd_components.specs.References.{attribute_groups, attributes, elements, groups, type_parts};
ghost use Rattle.xsd_conditions.specs.Conditions.{facets, has_bad_name, is_other_place, is_second, is_simple_restriction, kind_of, lacks_item, lacks_name, lacks_simple_base, lacks_type, lacks_value, named_parts, restricts_nothing};
ghost use Rattle.xsd_nodes.specs.declared.attribute_name.AttributeName.TheVariants as attribute;
ghost use Rattle.xsd_nodes.specs.declared.part.Part.TheVariants as part;

use std::alloc::{AllocError, Global};
use xsd_components::Schema;
use xsd_names::{is_ncname, letters_of, own_name, trim};
use xsd_nodes::{
    AttributeName, Part, holder, is_among, is_among_at, is_at, is_global, is_part, part_at, text_at,
};

/// The elements that declare components.
fn named_parts() -> &'static [Part]
    ensures { result.now ≡ named_parts }
{
    &[
        Part::Element,
        Part::Attribute,
        Part::ComplexType,
        Part::SimpleType,
        Part::Group,
        Part::AttributeGroup,
    ]
}

/// Whether a component that stands directly within the schema has no name.
pub fn lacks_name(schema: &Schema<'_>, place: u32) -> bool
    ensures { result ≡ lacks_name schema.now place }
{
    let nodes = schema.document().nodes();
    is_among_at(nodes, named_parts(), place)
        && is_global(nodes, place)
        && text_at(nodes, AttributeName::Name, place).is_none()
}

/// Whether a component has a name that is none.
///
/// # Errors
///
/// `AllocError` where memory is refused.
pub fn has_bad_name(alloc: Global, schema: &Schema<'_>, place: u32) -> Result<bool, AllocError>
    ensures { IfOk result (λ b. b ≡ has_bad_name schema.now place) }
{
    let nodes = schema.document().nodes();
    if !is_among_at(nodes, named_parts(), place) {
        return Ok(false);
    }
    match text_at(nodes, AttributeName::Name, place) {
        Some(name) => {
            let letters = letters_of(alloc, name)?;
            Ok(!is_ncname(trim(letters.as_slice())))
        }
        None => Ok(false),
    }
}

/// The elements that declare components of the same kind as this, and so share its names.
fn kind_of(part: Part) -> &'static [Part]
    ensures { result.now ≡ kind_of part }
{
    if is_part(Part::Element, part) {
        &[Part::Element]
    } else if is_part(Part::Attribute, part) {
        &[Part::Attribute]
    } else if is_among(&[Part::SimpleType, Part::ComplexType], part) {
        &[Part::SimpleType, Part::ComplexType]
    } else if is_part(Part::Group, part) {
        &[Part::Group]
    } else if is_part(Part::AttributeGroup, part) {
        &[Part::AttributeGroup]
    } else {
        &[]
    }
}

/// Whether there is such a place and it is another.
fn is_other_place(place: u32, found: Option<u32>) -> bool
    ensures { result ≡ is_other_place place found }
{
    match found {
        Some(found) => place != found,
        None => false,
    }
}

/// Whether a component is not the first of its kind and name.
///
/// # Errors
///
/// `AllocError` where memory is refused.
pub fn is_second(alloc: Global, schema: &Schema<'_>, place: u32) -> Result<bool, AllocError>
    ensures { IfOk result (λ b. b ≡ is_second schema.now place) }
{
    let nodes = schema.document().nodes();
    if !is_global(nodes, place) {
        return Ok(false);
    }
    match own_name(alloc, nodes, place)? {
        Some(name) => {
            let kind = kind_of(part_at(nodes, place));
            Ok(is_other_place(place, schema.component(kind, &name)))
        }
        None => Ok(false),
    }
}

/// Whether an element of this part names no type by this attribute, and holds none.
fn lacks_type(schema: &Schema<'_>, part: Part, attribute: AttributeName, place: u32) -> bool
    ensures { result ≡ lacks_type schema.now part attribute place }
{
    let nodes = schema.document().nodes();
    is_at(nodes, part, place)
        && text_at(nodes, attribute, place).is_none()
        && schema
            .document()
            .child(&[Part::SimpleType], place)
            .is_none()
}

/// Whether a list has no type of its items.
pub fn lacks_item_type(schema: &Schema<'_>, place: u32) -> bool
    ensures { result ≡ lacks_type schema.now part.List attribute.ItemType place }
{
    lacks_type(schema, Part::List, AttributeName::ItemType, place)
}

/// Whether a union has no member types.
pub fn lacks_member_types(schema: &Schema<'_>, place: u32) -> bool
    ensures { result ≡ lacks_type schema.now part.Union attribute.MemberTypes place }
{
    lacks_type(schema, Part::Union, AttributeName::MemberTypes, place)
}

/// The facets that have an effect.
fn facets() -> &'static [Part]
    ensures { result.now ≡ facets }
{
    &[
        Part::Pattern,
        Part::Enumeration,
        Part::MinInclusive,
        Part::MinExclusive,
        Part::MaxInclusive,
        Part::MaxExclusive,
    ]
}

/// Whether a facet has no value.
pub fn lacks_value(schema: &Schema<'_>, place: u32) -> bool
    ensures { result ≡ lacks_value schema.now place }
{
    let nodes = schema.document().nodes();
    is_among_at(nodes, facets(), place) && text_at(nodes, AttributeName::Value, place).is_none()
}

/// Whether the restriction of a simple type names no type, and holds none.
pub fn restricts_nothing(schema: &Schema<'_>, place: u32) -> bool
    ensures { result ≡ restricts_nothing schema.now place }
{
    is_part(Part::SimpleType, holder(schema.document().nodes(), place))
        && lacks_type(schema, Part::Restriction, AttributeName::Base, place)
}

/// Whether this is the restriction of a simple type.
fn is_simple_restriction(schema: &Schema<'_>, place: u32) -> bool
    ensures { result ≡ is_simple_restriction schema.now place }
{
    let nodes = schema.document().nodes();
    is_at(nodes, Part::Restriction, place) && is_part(Part::SimpleType, holder(nodes, place))
}

/// Whether the restriction of a simple type names one that is not there.
///
/// # Errors
///
/// `AllocError` where memory is refused.
pub fn lacks_simple_base(alloc: Global, schema: &Schema<'_>, place: u32) -> Result<bool, AllocError>
    ensures { IfOk result (λ b. b ≡ lacks_simple_base schema.now place) }
{
    if !is_simple_restriction(schema, place) {
        return Ok(false);
    }
    match text_at(schema.document().nodes(), AttributeName::Base, place) {
        Some(_) => match schema.base(alloc, place)? {
            Some(_) => Ok(false),
            None => Ok(true),
        },
        None => Ok(false),
    }
}

/// Whether a list names a type of its items that is not there.
///
/// # Errors
///
/// `AllocError` where memory is refused.
pub fn lacks_item(alloc: Global, schema: &Schema<'_>, place: u32) -> Result<bool, AllocError>
    ensures { IfOk result (λ b. b ≡ lacks_item schema.now place) }
{
    let nodes = schema.document().nodes();
    if !is_at(nodes, Part::List, place) {
        return Ok(false);
    }
    match text_at(nodes, AttributeName::ItemType, place) {
        Some(_) => match schema.item(alloc, place)? {
            Some(_) => Ok(false),
            None => Ok(true),
        },
        None => Ok(false),
    }
}
