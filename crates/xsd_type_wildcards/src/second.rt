//! Whether a type is derived with a wildcard of its own from one that has a wildcard.

ghost use Rattle.std.specs.Prelude.{◌≡◌, true, IfOk, Some};
ghost use Rattle.xsd_paths.specs.Paths.{is_whole_type};
ghost use Rattle.xsd_type_wildcards.specs.Sources.{is_wild, source_of};
ghost use Rattle.xsd_type_wildcards.specs.Told.{AreGroups, AreTypes, is_present, is_told, told_in, type_told};
ghost use Rattle.xsd_type_wildcards.specs.TypeWildcards.{derives_content, has_all_groups, has_wild_base, has_wild_type, is_any_type, is_second_wild};

use crate::source::Source;
use crate::types::{own_told, told_in};
use std::alloc::{AllocError, Global};
use xsd_builtins::ANY_TYPE;
use xsd_components::{Schema, TypeAt};
use xsd_nodes::{Part, holder, is_among, is_among_at, is_at};
use xsd_paths::Paths;

/// Whether it is known and so.
fn is_told(told: Option<bool>) -> bool
    ensures { result ≡ is_told told }
{
    match told {
        Some(own) => own,
        None => false,
    }
}

/// Whether there is a wildcard.
fn is_wild(source: Source) -> bool
    ensures { result ≡ is_wild source }
{
    match source {
        Source::Nowhere => false,
        Source::AnyType | Source::Holder(_) => true,
    }
}

/// Whether it is known where the wildcard is from, and it is there.
fn is_present(told: Option<Source>) -> bool
    ensures { result ≡ is_present told }
{
    match told {
        Some(source) => is_wild(source),
        None => false,
    }
}

/// Whether a type has a wildcard, where its paths end and so do those from the groups of attributes.
fn is_wild_type(paths: &Paths<'_>, types: &[Option<Source>], of: TypeAt) -> bool
    requires types { AreTypes paths.now types.now }
    ensures { result ≡ has_wild_type paths.now (Some of) }
{
    if !paths.is_whole_type(of) {
        return false;
    }
    is_present(told_in(types, of))
}

/// Whether a base has a wildcard, where it is there, its paths end and so do those from the groups of attributes.
fn has_wild_type(paths: &Paths<'_>, types: &[Option<Source>], base: Option<TypeAt>) -> bool
    requires types { AreTypes paths.now types.now }
    ensures { result ≡ has_wild_type paths.now base }
{
    match base {
        Some(base) => is_wild_type(paths, types, base),
        None => false,
    }
}

/// Whether a base is anyType.
fn is_any_type(base: Option<TypeAt>) -> bool
    ensures { result ≡ is_any_type base }
{
    match base {
        Some(TypeAt::Built(place)) => place == ANY_TYPE,
        Some(TypeAt::Node(_)) | None => false,
    }
}

/// Whether a base from which the element at a place derives has a wildcard that counts: that of anyType counts for an extension
/// alone.
fn has_wild_base(
    paths: &Paths<'_>,
    types: &[Option<Source>],
    place: u32,
    base: Option<TypeAt>,
) -> bool
    requires types { AreTypes paths.now types.now }
    ensures { result ≡ has_wild_base paths.now place base }
{
    let nodes = paths.schema().document().nodes();
    if is_at(nodes, Part::Restriction, place) && is_any_type(base) {
        return false;
    }
    has_wild_type(paths, types, base)
}

/// Whether the element at a place is the restriction or extension of a simpleContent or complexContent.
fn derives_content(schema: &Schema<'_>, place: u32) -> bool
    ensures { result ≡ derives_content schema.now place }
{
    let nodes = schema.document().nodes();
    is_among_at(nodes, &[Part::Restriction, Part::Extension], place)
        && is_among(
            &[Part::SimpleContent, Part::ComplexContent],
            holder(nodes, place),
        )
}

/// Whether the element at a place derives a type with a wildcard of its own from one that has a wildcard. A restriction of anyType
/// does not: its wildcard is the type's only one.
pub(crate) fn is_second_wild(
    alloc: Global,
    paths: &Paths<'_>,
    groups: &[bool],
    types: &[Option<Source>],
    place: u32,
) -> Result<bool, AllocError>
    requires groups { AreGroups paths.now groups.now }
    requires types { AreTypes paths.now types.now }
    ensures { IfOk result (λ b. b ≡ is_second_wild paths.now place) }
{
    let schema = paths.schema();
    if !derives_content(schema, place) {
        return Ok(false);
    }
    let own = own_told(alloc, paths, groups, place)?;
    if !is_told(own) {
        return Ok(false);
    }
    let base = schema.base(alloc, place)?;
    Ok(has_wild_base(paths, types, place, base))
}

/// Where a type has its wildcard from, whose paths end, and so do those from the groups of attributes.
pub(crate) fn told_source(_paths: &Paths<'_>, types: &[Option<Source>], of: TypeAt) -> Source
    requires types { AreTypes _paths.now types.now }
    requires whole { is_whole_type _paths.now of ≡ true }
    requires groups { has_all_groups _paths.now of ≡ true }
    ensures { result ≡ source_of _paths.now of }
{
    match told_in(types, of) {
        Some(source) => source,
        None => Source::Nowhere,
    }
}

/// Whether the groups of attributes that a type and those that it extends name are there, and the paths from them end.
pub(crate) fn has_all_groups(_paths: &Paths<'_>, types: &[Option<Source>], of: TypeAt) -> bool
    requires types { AreTypes _paths.now types.now }
    requires whole { is_whole_type _paths.now of ≡ true }
    ensures { result ≡ has_all_groups _paths.now of }
{
    told_in(types, of).is_some()
}
