//! Which groups of attributes have a wildcard, in one pass over the paths.

ghost use Rattle.std.specs.Prelude.{◌≡◌, ◌&&◌, ◌||◌, IfOk};
ghost use Rattle.std.specs.List.{list_any};
ghost use Rattle.xsd_components.specs.References.{attribute_groups};
ghost use Rattle.xsd_paths.specs.Paths.{leads_to};
ghost use Rattle.xsd_type_wildcards.specs.Told.{AreGroups, has_own_by, holds_wild, is_group, is_marked};

use std::alloc::{AllocError, Global};
use xsd_components::Schema;
use xsd_derivations::attribute_groups_named;
use xsd_nodes::{Part, is_among_at, is_global};
use xsd_paths::Paths;

/// Whether a group that is named is there, and has a wildcard.
fn leads_to_wild(groups: &[bool], named: Option<u32>) -> bool
    ensures { result ≡ leads_to (is_marked groups.now) named }
{
    match named {
        Some(place) => match groups.get(place as usize) {
            Some(group) => *group,
            None => false,
        },
        None => false,
    }
}

/// Whether one of the groups that are named has a wildcard.
fn names_wild(groups: &[bool], named: &[Option<u32>]) -> bool
    ensures { result ≡ list_any (leads_to (is_marked groups.now)) named.now }
{
    for group in named {
        if leads_to_wild(groups, *group) {
            return true;
        }
    }
    false
}

/// Whether the element at a place holds a wildcard, or one of the groups that it names has one.
pub(crate) fn has_own(
    schema: &Schema<'_>,
    groups: &[bool],
    named: &[Option<u32>],
    place: u32,
) -> bool
    ensures { result ≡ (holds_wild schema.now place || list_any (leads_to (is_marked groups.now)) named.now) }
{
    schema
        .document()
        .child(&[Part::AnyAttribute], place)
        .is_some()
        || names_wild(groups, named)
}

/// Whether the element at a place is a group of attributes that others can name.
pub(crate) fn is_group(schema: &Schema<'_>, place: u32) -> bool
    ensures { result ≡ is_group schema.now place }
{
    let nodes = schema.document().nodes();
    is_global(nodes, place) && is_among_at(nodes, &[Part::AttributeGroup], place)
}

/// Whether the element at a place is a group of attributes and has a wildcard, from what is known of the groups that it names.
fn is_wild_by(
    alloc: Global,
    schema: &Schema<'_>,
    groups: &[bool],
    place: u32,
) -> Result<bool, AllocError>
    ensures { IfOk result (λ b. b ≡ (is_group schema.now place && has_own_by schema.now (is_marked groups.now) place)) }
{
    if !is_group(schema, place) {
        return Ok(false);
    }
    let named = attribute_groups_named(alloc, schema, place)?;
    Ok(has_own(schema, groups, named.as_slice(), place))
}

/// Which elements are groups of attributes that have a wildcard, of those whose paths end.
pub(crate) fn wild_groups(alloc: Global, paths: &Paths<'_>) -> Result<Vec<bool>, AllocError>
    ensures { IfOk result (λ v. AreGroups paths.now v.items) }
{
    let schema = paths.schema();
    let order = paths.order();
    let mut groups = vec![in alloc; false; schema.document().nodes().len()]?;
    for place in order {
        let is_wild = is_wild_by(alloc, schema, groups.as_slice(), *place)?;
        groups[*place as usize] = is_wild;
    }
    Ok(groups)
}
