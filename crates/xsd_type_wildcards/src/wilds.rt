//! What the attribute wildcards of types allow.

ghost use Rattle.std.specs.Prelude.{◌≡◌, true, None, IfOk, if◌then◌else◌, length, map};
ghost use Rattle.xsd_components.specs.declared.type_at.TypeAt.TheVariants as type_at;
ghost use Rattle.xsd_paths.specs.Paths.{has_whole_groups, is_whole};
ghost use Rattle.xsd_type_wildcards.specs.Sources.{source_of, wild_at};
ghost use Rattle.xsd_type_wildcards.specs.Told.{is_group};
ghost use Rattle.xsd_type_wildcards.specs.TypeWildcards.{all_together, has_all_groups, of_group, own_wild, together, type_wild};
ghost use Rattle.xsd_type_wildcards.specs.Wilds.{AreOwn, AreWilds, HasWholeGroups, held_wilds, own_if_whole, own_wild_by, wild_told};

use crate::groups::is_group;
use crate::source::Source;
use crate::type_wildcards::TypeWildcards;
use std::alloc::{AllocError, Global};
use std::marker::Model;
use xsd_components::{Schema, TypeAt};
use xsd_derivations::attribute_groups_named;
use xsd_nodes::Part;
use xsd_paths::Paths;
use xsd_wildcards::{Allowed, allowed_at, both};

/// What two wildcards allow together, or the one that is there.
fn together(
    alloc: Global,
    one: Option<Allowed>,
    more: Option<Allowed>,
) -> Result<Option<Allowed>, AllocError>
    ensures { IfOk result (λ a. a ≡ together one more) }
{
    match (one, more) {
        (Some(one), Some(more)) => Ok(Some(both(alloc, one, more)?)),
        (Some(one), None) => Ok(Some(one)),
        (None, more) => Ok(more),
    }
}

/// What the wildcards that the element at a place holds allow together.
fn held_wild(alloc: Global, schema: &Schema<'_>, place: u32) -> Result<Option<Allowed>, AllocError>
    ensures { IfOk result (λ a. a ≡ all_together None (held_wilds schema.now place)) }
{
    let document = schema.document();
    let held = document.children(alloc, &[Part::AnyAttribute], place)?;
    let mut found = None;
    for child in held.as_slice() {
        let allowed = allowed_at(alloc, document.nodes(), *child)?;
        found = together(alloc, found, Some(allowed))?;
    }
    Ok(found)
}

/// What the wildcard of a group that is named allows.
fn of_group(
    alloc: Global,
    groups: &[Option<Allowed>],
    named: Option<u32>,
) -> Result<Option<Allowed>, AllocError>
    ensures { IfOk result (λ a. a ≡ of_group (wild_told groups.now) named) }
{
    match named {
        Some(place) => match groups.get(place as usize) {
            Some(Some(allowed)) => Ok(Some(allowed.copy(alloc)?)),
            Some(None) => Ok(None),
            None => Ok(None),
        },
        None => Ok(None),
    }
}

/// What a wildcard and those of the groups that are named allow together.
fn with_groups(
    alloc: Global,
    groups: &[Option<Allowed>],
    own: Option<Allowed>,
    named: &[Option<u32>],
) -> Result<Option<Allowed>, AllocError>
    ensures { IfOk result (λ a. a ≡ all_together own (map (of_group (wild_told groups.now)) named.now)) }
{
    let mut found = own;
    for group in named {
        found = together(alloc, found, of_group(alloc, groups, *group)?)?;
    }
    Ok(found)
}

/// What the element at a place allows by its own wildcard and those of the groups that it names.
fn own_wild_by(
    alloc: Global,
    schema: &Schema<'_>,
    groups: &[Option<Allowed>],
    place: u32,
) -> Result<Option<Allowed>, AllocError>
    ensures { IfOk result (λ a. a ≡ own_wild_by schema.now (wild_told groups.now) place) }
{
    let held = held_wild(alloc, schema, place)?;
    let named = attribute_groups_named(alloc, schema, place)?;
    with_groups(alloc, groups, held, named.as_slice())
}

/// The wildcard of the element at a place, where it is a group of attributes, from those of the groups that it names.
fn group_wild_by(
    alloc: Global,
    schema: &Schema<'_>,
    groups: &[Option<Allowed>],
    place: u32,
) -> Result<Option<Allowed>, AllocError>
    ensures { IfOk result (λ a. a ≡ (if is_group schema.now place then own_wild_by schema.now (wild_told groups.now) place else None)) }
{
    if is_group(schema, place) {
        own_wild_by(alloc, schema, groups, place)
    } else {
        Ok(None)
    }
}

/// No wildcards for so many elements.
fn no_wilds(alloc: Global, count: usize) -> Result<Vec<Option<Allowed>>, AllocError>
    ensures { IfOk result (λ v. length v.items ≡ count) }
{
    let mut wilds = Vec::new(alloc);
    for _ in 0..count {
        wilds.push(None)?;
    }
    Ok(wilds)
}

/// The wildcards of the groups of attributes whose paths end.
fn group_wilds(alloc: Global, paths: &Paths<'_>) -> Result<Vec<Option<Allowed>>, AllocError>
    ensures { IfOk result (λ v. AreWilds paths.now v.items) }
{
    let schema = paths.schema();
    let order = paths.order();
    let mut groups = no_wilds(alloc, schema.document().nodes().len())?;
    for place in order {
        let wild = group_wild_by(alloc, schema, groups.as_slice(), *place)?;
        groups[*place as usize] = wild;
    }
    Ok(groups)
}

/// What the wildcards allow that the element at a place has of its own, and of the groups that it names.
fn own_wild(
    alloc: Global,
    paths: &Paths<'_>,
    groups: &[Option<Allowed>],
    place: u32,
) -> Result<Option<Allowed>, AllocError>
    requires wilds { AreWilds paths.now groups.now }
    requires groups { has_whole_groups paths.now place ≡ true }
    ensures { IfOk result (λ a. a ≡ own_wild paths.now place) }
{
    own_wild_by(alloc, paths.schema(), groups, place)
}

/// What the wildcards allow that the element at a place has of its own, and of the groups that it names, where these are whole.
fn own_if_whole(
    alloc: Global,
    paths: &Paths<'_>,
    groups: &[Option<Allowed>],
    place: u32,
) -> Result<Option<Allowed>, AllocError>
    requires wilds { AreWilds paths.now groups.now }
    ensures { IfOk result (λ a. a ≡ own_if_whole paths.now place) }
{
    let whole = paths.has_whole_groups(alloc, place)?;
    if whole {
        own_wild(alloc, paths, groups, place)
    } else {
        Ok(None)
    }
}

/// What the wildcards allow that each element has, where the groups that it names are whole.
fn own_wilds(
    alloc: Global,
    paths: &Paths<'_>,
    groups: &[Option<Allowed>],
) -> Result<Vec<Option<Allowed>>, AllocError>
    requires wilds { AreWilds paths.now groups.now }
    ensures { IfOk result (λ v. AreOwn paths.now v.items) }
{
    let mut own = Vec::new(alloc);
    for place in 0..paths.schema().document().nodes().len() {
        let wild = own_if_whole(alloc, paths, groups, place as u32)?;
        own.push(wild)?;
    }
    Ok(own)
}

/// What a table tells of the element at a place that names groups that are whole.
fn own_told(
    alloc: Global,
    paths: &Paths<'_>,
    groups: &[Option<Allowed>],
    own: &[Option<Allowed>],
    place: u32,
) -> Result<Option<Allowed>, AllocError>
    requires wilds { AreWilds paths.now groups.now }
    requires own { AreOwn paths.now own.now }
    requires groups { has_whole_groups paths.now place ≡ true }
    ensures { IfOk result (λ a. a ≡ own_wild paths.now place) }
{
    if place as usize >= own.len() {
        return own_wild(alloc, paths, groups, place);
    }
    match &own[place as usize] {
        Some(allowed) => Ok(Some(allowed.copy(alloc)?)),
        None => Ok(None),
    }
}

/// What the wildcard allows that is from there.
fn wild_at(
    alloc: Global,
    paths: &Paths<'_>,
    groups: &[Option<Allowed>],
    own: &[Option<Allowed>],
    source: Source,
) -> Result<Option<Allowed>, AllocError>
    requires wilds { AreWilds paths.now groups.now }
    requires own { AreOwn paths.now own.now }
    requires groups { HasWholeGroups paths.now source }
    ensures { IfOk result (λ a. a ≡ wild_at paths.now source) }
{
    match source {
        Source::Nowhere => Ok(None),
        Source::AnyType => Ok(Some(Allowed::Every)),
        Source::Holder(place) => own_told(alloc, paths, groups, own, place),
    }
}

/// What the wildcard of a type allows that it has from there.
fn type_wild(
    alloc: Global,
    paths: &Paths<'_>,
    groups: &[Option<Allowed>],
    own: &[Option<Allowed>],
    of: TypeAt,
    source: Source,
) -> Result<Option<Allowed>, AllocError>
    requires wilds { AreWilds paths.now groups.now }
    requires own { AreOwn paths.now own.now }
    requires groups { has_all_groups paths.now of ≡ true }
    requires source { source ≡ source_of paths.now of }
    ensures { IfOk result (λ a. a ≡ type_wild paths.now of) }
{
    wild_at(alloc, paths, groups, own, source)
}

/// A schema document, seen as the list of its elements, with what the wildcards of its groups of attributes allow. Made where a
/// document has no fault: its wildcards then list no namespace but its own, and so are short.
#[derive(Debug, Drop)]
pub struct Wilds<'a> {
    wildcards: &'a TypeWildcards<'a>,
    groups: Vec<Option<Allowed>>,
    own: Vec<Option<Allowed>>,
}

impl<'a> Model for Wilds<'a> {
    ghost use Rattle.std.specs.Prelude.{List};
    ghost use Rattle.xsd_tree.specs.declared.node.Node.{Node};
    ghost use Rattle.xsd_type_wildcards.specs.Wilds.{AreOwn, AreWilds};

    ghost Value = { List Node };

    ghost view = { λ w. w.wildcards.now };

    ghost invariant = { λ w. AreWilds w.wildcards.now w.groups.items × AreOwn w.wildcards.now w.own.items };
}

impl<'a> Wilds<'a> {
    /// What the wildcards of a schema allow.
    ///
    /// # Errors
    ///
    /// `AllocError` where memory is refused.
    pub fn of(alloc: Global, wildcards: &'a TypeWildcards<'a>) -> Result<Wilds<'a>, AllocError>
        ensures { IfOk result (λ w. w ≡ wildcards.now) }
    {
        let groups = group_wilds(alloc, wildcards.paths())?;
        let own = own_wilds(alloc, wildcards.paths(), groups.as_slice())?;
        Ok(Wilds {
            wildcards,
            groups,
            own,
        })
    }

    /// Whether the groups of attributes that the type at a place and those that it extends name are there, and the paths from them
    /// end. The paths from the type end.
    pub fn has_all_groups(&self, place: u32) -> bool
        requires whole { is_whole self.now place ≡ true }
        ensures { result ≡ has_all_groups self.now (type_at.Node place) }
    {
        self.wildcards.has_all_groups(place)
    }

    /// What the attribute wildcard of the type at a place allows. The paths from the type end, and so do those from the groups of
    /// attributes that it and its bases name.
    ///
    /// # Errors
    ///
    /// `AllocError` where memory is refused.
    pub fn type_wild(&self, alloc: Global, place: u32) -> Result<Option<Allowed>, AllocError>
        requires whole { is_whole self.now place ≡ true }
        requires groups { has_all_groups self.now (type_at.Node place) ≡ true }
        ensures { IfOk result (λ a. a ≡ type_wild self.now (type_at.Node place)) }
    {
        let groups = self.groups.as_slice();
        let source = self.wildcards.source(place);
        let own = self.own.as_slice();
        let of = TypeAt::Node(place);
        type_wild(alloc, self.wildcards.paths(), groups, own, of, source)
    }
}
