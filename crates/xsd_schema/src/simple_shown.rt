//! What is wrong with an element that makes up a simple type, and which fault is the first.

ghost use Rattle.std.specs.Prelude.{◌≡◌, IfOk};
ghost use Rattle.xsd_conditions.specs.Conditions.{is_simple_restriction};
ghost use Rattle.xsd_schema.specs.Shown.{circular_parts, is_circular, is_of_simple_type, is_simple_bad, is_simple_unresolved, is_simple_unsupported, simple_kind, simple_parts, simple_shows};

use crate::facets::{
    enumerates_no_value, is_no_value, is_second_pattern, lacks_member, pattern_is_refused,
};
use std::alloc::{AllocError, Global};
use xsd_circles::Circles;
use xsd_components::Schema;
use xsd_conditions::{
    has_bad_name, is_second, lacks_item, lacks_item_type, lacks_member_types, lacks_name,
    lacks_simple_base, lacks_value, restricts_nothing,
};
use xsd_model::SchemaKind;
use xsd_nodes::{Part, holder, is_among_at, is_at, is_part, is_skipped};
use xsd_simple::Simples;

/// The elements that declare what can reach itself.
fn circular_parts() -> &'static [Part]
    ensures { result.now ≡ circular_parts }
{
    &[
        Part::SimpleType,
        Part::ComplexType,
        Part::Group,
        Part::AttributeGroup,
        Part::Element,
    ]
}

/// Whether a component reaches itself.
///
/// # Errors
///
/// `AllocError` where memory is refused.
pub fn is_circular(
    alloc: Global,
    schema: &Schema<'_>,
    circles: &Circles<'_>,
    place: u32,
) -> Result<bool, AllocError>
    requires same { circles.now ≡ schema.now }
    ensures { IfOk result (λ b. b ≡ is_circular schema.now place) }
{
    if is_among_at(schema.document().nodes(), circular_parts(), place) {
        circles.reaches_itself(alloc, place)
    } else {
        Ok(false)
    }
}

/// The elements that make up simple types, but for restrictions.
fn simple_parts() -> &'static [Part]
    ensures { result.now ≡ simple_parts }
{
    &[
        Part::SimpleType,
        Part::List,
        Part::Union,
        Part::Pattern,
        Part::Enumeration,
        Part::MinInclusive,
        Part::MinExclusive,
        Part::MaxInclusive,
        Part::MaxExclusive,
    ]
}

/// Whether an element is one of those that make up simple types.
fn is_of_simple_type(schema: &Schema<'_>, place: u32) -> bool
    ensures { result ≡ is_of_simple_type schema.now place }
{
    let nodes = schema.document().nodes();
    is_among_at(nodes, simple_parts(), place)
        || (is_at(nodes, Part::Restriction, place)
            && is_part(Part::SimpleType, holder(nodes, place)))
}

/// Whether it is not read.
fn is_unsupported(alloc: Global, simples: &Simples<'_>, place: u32) -> Result<bool, AllocError>
    ensures { IfOk result (λ b. b ≡ is_simple_unsupported simples.now.nodes place) }
{
    Ok(enumerates_no_value(alloc, simples, place)? || is_second_pattern(alloc, simples, place)?)
}

/// Whether something is missing in it or has no value.
fn is_bad(alloc: Global, simples: &Simples<'_>, place: u32) -> Result<bool, AllocError>
    ensures { IfOk result (λ b. b ≡ is_simple_bad simples.now.nodes place) }
{
    let schema = simples.schema();
    Ok(
        lacks_name(schema, place)
            || has_bad_name(alloc, schema, place)?
            || restricts_nothing(schema, place)
            || lacks_item_type(schema, place)
            || lacks_member_types(schema, place)
            || lacks_value(schema, place)
            || is_no_value(alloc, simples, place)?,
    )
}

/// Whether it names what is not there.
fn is_unresolved(alloc: Global, schema: &Schema<'_>, place: u32) -> Result<bool, AllocError>
    ensures { IfOk result (λ b. b ≡ is_simple_unresolved schema.now place) }
{
    Ok(
        lacks_simple_base(alloc, schema, place)?
            || lacks_item(alloc, schema, place)?
            || lacks_member(alloc, schema, place)?,
    )
}

/// What is wrong with it, the first that holds.
fn simple_kind(
    alloc: Global,
    simples: &Simples<'_>,
    circles: &Circles<'_>,
    place: u32,
) -> Result<Option<SchemaKind>, AllocError>
    requires same { circles.now ≡ simples.now.nodes }
    ensures { IfOk result (λ k. k ≡ simple_kind simples.now.nodes place) }
{
    let schema = simples.schema();
    if is_unsupported(alloc, simples, place)? {
        Ok(Some(SchemaKind::Unsupported))
    } else if is_bad(alloc, simples, place)? {
        Ok(Some(SchemaKind::BadPart))
    } else if is_second(alloc, schema, place)? {
        Ok(Some(SchemaKind::TwiceDeclared))
    } else if is_unresolved(alloc, schema, place)? {
        Ok(Some(SchemaKind::Unresolved))
    } else if is_circular(alloc, schema, circles, place)? {
        Ok(Some(SchemaKind::Circular))
    } else if pattern_is_refused(alloc, schema, place)? {
        Ok(Some(SchemaKind::PatternRefused))
    } else {
        Ok(None)
    }
}

/// What is wrong with an element that makes up a simple type; nothing for any other.
///
/// # Errors
///
/// `AllocError` where memory is refused.
pub fn simple_shows(
    alloc: Global,
    simples: &Simples<'_>,
    circles: &Circles<'_>,
    place: u32,
) -> Result<Option<SchemaKind>, AllocError>
    requires same { circles.now ≡ simples.now.nodes }
    ensures { IfOk result (λ k. k ≡ simple_shows simples.now.nodes place) }
{
    let schema = simples.schema();
    if !is_skipped(schema.document().nodes(), place) && is_of_simple_type(schema, place) {
        simple_kind(alloc, simples, circles, place)
    } else {
        Ok(None)
    }
}
