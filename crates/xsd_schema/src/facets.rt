//! What is wrong with a part of a simple type of a schema document (XML Schema 1.0 Part 2, sections 4.1 to 4.3).
//!
//! Each condition is asked of one element. One that needs what a type is derived from is asked only where each path from there
//! ends:
//!
//! ```text
//!   2  simpleType  name="mark"
//!   3    restriction  base="xs:byte"
//!   4      enumeration  value="1"
//!   5      enumeration  value="128"       xs:byte has no such value
//! ```

ghost use Rattle.std.specs.Prelude.{◌≡◌, true, IfOk, IfSome};
ghost use Rattle.std.specs.List.{list_any};
ghost use Rattle.xsd_conditions.specs.Conditions.{bounds_and_values, is_missing};
ghost use Rattle.xsd_schema.specs.Facets.{enumerates_no_value, facet_type, is_no_value, is_refused, is_second_pattern, lacks_member, pattern_is_refused, type_restricted};
ghost use Rattle.xsd_paths.specs.Paths.{is_whole_type};

use exi_pattern::{CharSet, chars_of};
use std::alloc::{AllocError, Global};
use xsd_components::{Schema, TypeAt};
use xsd_derivations::members;
use xsd_nodes::{AttributeName, Part, is_among_at, is_at, parent_at, text_at};
use xsd_simple::Simples;

/// The type that the restriction at a place restricts; nothing where it is no restriction or a path from it does not end.
///
/// # Errors
///
/// `AllocError` where memory is refused.
pub fn type_restricted(
    alloc: Global,
    simples: &Simples<'_>,
    place: Option<u32>,
) -> Result<Option<TypeAt>, AllocError>
    ensures of { IfOk result (λ t. t ≡ type_restricted simples.now.nodes place) }
    ensures whole { IfOk result (λ t. IfSome t (λ of. is_whole_type simples.now.nodes of ≡ true)) }
{
    match place {
        Some(place) => {
            if is_at(
                simples.schema().document().nodes(),
                Part::Restriction,
                place,
            ) && simples.paths().is_whole(place)
            {
                simples.values().restricted_type(alloc, place)
            } else {
                Ok(None)
            }
        }
        None => Ok(None),
    }
}

/// The type on which a facet stands.
fn facet_type(
    alloc: Global,
    simples: &Simples<'_>,
    place: u32,
) -> Result<Option<TypeAt>, AllocError>
    ensures of { IfOk result (λ t. t ≡ facet_type simples.now.nodes place) }
    ensures whole { IfOk result (λ t. IfSome t (λ of. is_whole_type simples.now.nodes of ≡ true)) }
{
    let parent = parent_at(simples.schema().document().nodes(), place);
    type_restricted(alloc, simples, parent)
}

/// Whether an enumerated value stands on a list, a union or a type whose values are names.
///
/// # Errors
///
/// `AllocError` where memory is refused.
pub fn enumerates_no_value(
    alloc: Global,
    simples: &Simples<'_>,
    place: u32,
) -> Result<bool, AllocError>
    ensures { IfOk result (λ b. b ≡ enumerates_no_value simples.now.nodes place) }
{
    if !is_at(
        simples.schema().document().nodes(),
        Part::Enumeration,
        place,
    ) {
        return Ok(false);
    }
    match facet_type(alloc, simples, place)? {
        Some(of) => Ok(simples.is_not_enumerable(of)),
        None => Ok(false),
    }
}

/// Whether a pattern stands on a type that has one, from another step of its derivation.
///
/// # Errors
///
/// `AllocError` where memory is refused.
pub fn is_second_pattern(
    alloc: Global,
    simples: &Simples<'_>,
    place: u32,
) -> Result<bool, AllocError>
    ensures { IfOk result (λ b. b ≡ is_second_pattern simples.now.nodes place) }
{
    if !is_at(simples.schema().document().nodes(), Part::Pattern, place) {
        return Ok(false);
    }
    match facet_type(alloc, simples, place)? {
        Some(of) => Ok(simples.is_patterned(of)),
        None => Ok(false),
    }
}

/// The facets that tell a value of their type.
fn bounds_and_values() -> &'static [Part]
    ensures { result.now ≡ bounds_and_values }
{
    &[
        Part::Enumeration,
        Part::MinInclusive,
        Part::MinExclusive,
        Part::MaxInclusive,
        Part::MaxExclusive,
    ]
}

/// Whether a facet tells what is no value of the type on which it stands.
///
/// # Errors
///
/// `AllocError` where memory is refused.
pub fn is_no_value(alloc: Global, simples: &Simples<'_>, place: u32) -> Result<bool, AllocError>
    ensures { IfOk result (λ b. b ≡ is_no_value simples.now.nodes place) }
{
    let nodes = simples.schema().document().nodes();
    if !is_among_at(nodes, bounds_and_values(), place) {
        return Ok(false);
    }
    match facet_type(alloc, simples, place)? {
        Some(of) => Ok(!simples.has_value(alloc, of, place)?),
        None => Ok(false),
    }
}

/// Whether one of these is not there.
fn is_one_missing(found: &[Option<TypeAt>]) -> bool
    ensures { result ≡ list_any is_missing found.now }
{
    for of in found {
        if of.is_none() {
            return true;
        }
    }
    false
}

/// Whether a union names a member type that is not there.
///
/// # Errors
///
/// `AllocError` where memory is refused.
pub fn lacks_member(alloc: Global, schema: &Schema<'_>, place: u32) -> Result<bool, AllocError>
    ensures { IfOk result (λ b. b ≡ lacks_member schema.now place) }
{
    if !is_at(schema.document().nodes(), Part::Union, place) {
        return Ok(false);
    }
    let found = members(alloc, schema, place)?;
    Ok(is_one_missing(found.as_slice()))
}

/// Whether the text was no pattern, or one that is not read.
fn is_refused(set: &CharSet) -> bool
    ensures { result ≡ is_refused set.now }
{
    match set {
        CharSet::Refused(_) => true,
        CharSet::Set(_) => false,
        CharSet::Any => false,
    }
}

/// Whether the value of a pattern is none, or one that is not read.
///
/// # Errors
///
/// `AllocError` where memory is refused.
pub fn pattern_is_refused(
    alloc: Global,
    schema: &Schema<'_>,
    place: u32,
) -> Result<bool, AllocError>
    ensures { IfOk result (λ b. b ≡ pattern_is_refused schema.now place) }
{
    let nodes = schema.document().nodes();
    if !is_at(nodes, Part::Pattern, place) {
        return Ok(false);
    }
    match text_at(nodes, AttributeName::Value, place) {
        Some(pattern) => {
            let set = chars_of(alloc, pattern)?;
            Ok(is_refused(&set))
        }
        None => Ok(false),
    }
}
