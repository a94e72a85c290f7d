//! Where types have their wildcards from, in one pass over the paths.

ghost use Rattle.std.specs.Prelude.{◌≡◌, IfOk};
ghost use Rattle.std.specs.List.{list_all};
ghost use Rattle.xsd_paths.specs.Paths.{is_whole, leads_to};
ghost use Rattle.xsd_type_wildcards.specs.Sources.{from_any_type, holder_or};
ghost use Rattle.xsd_type_wildcards.specs.Told.{AreGroups, AreTypes, base_told, derived_told, held_or, own_told, told_by, told_in};
ghost use Rattle.xsd_type_wildcards.specs.TypeWildcards.{attributes_in};

use crate::groups::has_own;
use crate::source::Source;
use std::alloc::{AllocError, Global};
use xsd_builtins::ANY_TYPE;
use xsd_components::{Schema, TypeAt};
use xsd_derivations::attribute_groups_named;
use xsd_nodes::{Part, is_at};
use xsd_paths::Paths;

/// Whether a group that is named is there, and each path from it ends.
fn leads_to_whole(paths: &Paths<'_>, named: Option<u32>) -> bool
    ensures { result ≡ leads_to (is_whole paths.now) named }
{
    match named {
        Some(place) => paths.is_whole(place),
        None => false,
    }
}

/// Whether the groups that are named are there, and each path from them ends.
fn are_whole(paths: &Paths<'_>, named: &[Option<u32>]) -> bool
    ensures { result ≡ list_all (leads_to (is_whole paths.now)) named.now }
{
    for group in named {
        if !leads_to_whole(paths, *group) {
            return false;
        }
    }
    true
}

/// Whether the element at a place has a wildcard of its own; nothing where a group that it names is not there or has a path that
/// does not end.
pub(crate) fn own_told(
    alloc: Global,
    paths: &Paths<'_>,
    groups: &[bool],
    place: u32,
) -> Result<Option<bool>, AllocError>
    requires groups { AreGroups paths.now groups.now }
    ensures { IfOk result (λ o. o ≡ own_told paths.now place) }
{
    let schema = paths.schema();
    let groups_named = attribute_groups_named(alloc, schema, place)?;
    let named = groups_named.as_slice();
    if are_whole(paths, named) {
        Ok(Some(has_own(schema, groups, named, place)))
    } else {
        Ok(None)
    }
}

/// Where the built-in type at a place has a wildcard from.
fn from_any_type(place: u32) -> Source
    ensures { result ≡ from_any_type place }
{
    if place == ANY_TYPE {
        Source::AnyType
    } else {
        Source::Nowhere
    }
}

/// Where a type has its wildcard from, as far as it is known.
pub(crate) fn told_in(types: &[Option<Source>], of: TypeAt) -> Option<Source>
    ensures { result ≡ told_in types.now of }
{
    match of {
        TypeAt::Built(place) => Some(from_any_type(place)),
        TypeAt::Node(place) => match types.get(place as usize) {
            Some(told) => *told,
            None => Some(Source::Nowhere),
        },
    }
}

/// What the element at a place inherits from a base.
fn base_told(
    schema: &Schema<'_>,
    types: &[Option<Source>],
    place: u32,
    base: Option<TypeAt>,
) -> Option<Source>
    ensures { result ≡ base_told schema.now (told_in types.now) place base }
{
    match base {
        Some(base) => {
            if is_at(schema.document().nodes(), Part::Extension, place) {
                told_in(types, base)
            } else {
                Some(Source::Nowhere)
            }
        }
        None => Some(Source::Nowhere),
    }
}

/// The element at a place where it has a wildcard of its own, or else what it inherits.
fn holder_or(own: bool, place: u32, inherited: Source) -> Source
    ensures { result ≡ holder_or own place inherited }
{
    if own {
        Source::Holder(place)
    } else {
        inherited
    }
}

/// The element at a place or what it inherits, where both are known.
fn held_or(place: u32, own: Option<bool>, inherited: Option<Source>) -> Option<Source>
    ensures { result ≡ held_or place own inherited }
{
    match (own, inherited) {
        (Some(own), Some(inherited)) => Some(holder_or(own, place, inherited)),
        (Some(_), None) => None,
        (None, _) => None,
    }
}

/// Where the type whose attributes the element at a place holds has its wildcard from.
fn derived_told(
    alloc: Global,
    paths: &Paths<'_>,
    groups: &[bool],
    types: &[Option<Source>],
    place: u32,
) -> Result<Option<Source>, AllocError>
    requires groups { AreGroups paths.now groups.now }
    ensures { IfOk result (λ o. o ≡ derived_told paths.now (told_in types.now) place) }
{
    let schema = paths.schema();
    let own = own_told(alloc, paths, groups, place)?;
    let base = schema.base(alloc, place)?;
    Ok(held_or(place, own, base_told(schema, types, place, base)))
}

/// The place of the element that holds the attributes of the complex type at a place.
fn attributes_in(schema: &Schema<'_>, place: u32) -> u32
    ensures { result ≡ attributes_in schema.now place }
{
    match schema.derivation(place) {
        Some(derivation) => derivation,
        None => place,
    }
}

/// Where the type at a place has its wildcard from, by what is known of its base.
fn told_by(
    alloc: Global,
    paths: &Paths<'_>,
    groups: &[bool],
    types: &[Option<Source>],
    place: u32,
) -> Result<Option<Source>, AllocError>
    requires groups { AreGroups paths.now groups.now }
    ensures { IfOk result (λ o. o ≡ told_by paths.now (told_in types.now) place) }
{
    let schema = paths.schema();
    if schema.is_simple(TypeAt::Node(place)) {
        return Ok(Some(Source::Nowhere));
    }
    derived_told(alloc, paths, groups, types, attributes_in(schema, place))
}

/// Where the types whose paths end have their wildcards from; nothing stands for one that, or a type that it extends, names a
/// group of attributes that is not there or has a path that does not end.
pub(crate) fn wild_types(
    alloc: Global,
    paths: &Paths<'_>,
    groups: &[bool],
) -> Result<Vec<Option<Source>>, AllocError>
    requires groups { AreGroups paths.now groups.now }
    ensures { IfOk result (λ v. AreTypes paths.now v.items) }
{
    let order = paths.order();
    let count = paths.schema().document().nodes().len();
    let mut types = vec![in alloc; Some(Source::Nowhere); count]?;
    for place in order {
        let told = told_by(alloc, paths, groups, types.as_slice(), *place)?;
        types[*place as usize] = told;
    }
    Ok(types)
}
