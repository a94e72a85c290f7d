//! What the facets of a restriction say of its base.

ghost use Rattle.std.specs.Prelude.{◌≡◌, ◌<◌, false, IfOk, [], ◌∷◌, length, map, option_map, option_to_list, Some};
ghost use Rattle.std.specs.List.{flat_map};
ghost use Rattle.exi_names.specs.Forms.{int_of};
ghost use Rattle.exi_names.specs.Seen.{seen, vals};
ghost use Rattle.exi_pattern.specs.Joins.{letters_in};
ghost use Rattle.xsd_bounds.specs.Bounds.{greatest, integer_in, least_among, stands_at};
ghost use Rattle.xsd_nodes.specs.Nodes.{children, text_at};
ghost use Rattle.xsd_nodes.specs.declared.attribute_name.AttributeName.TheVariants as attribute;
ghost use Rattle.xsd_nodes.specs.declared.part.Part.TheVariants as part;
ghost use Rattle.xsd_restrictions.specs.Restrictions.{bound, facet_value, form_at, is_list, letters_among, letters_of};

use crate::forms::Forms;
use exi_names::{Val, ValList, Whole};
use exi_pattern::{CharSet, Letters, chars_of};
use std::alloc::{AllocError, Global};
use xsd_bounds::{Bound, greater, smaller};
use xsd_document::Document;
use xsd_nodes::{AttributeName, Part, is_at, text_at};
use xsd_tree::Node;

/// The integer that a facet tells as the form at a place has it.
fn integer_at(
    alloc: Global,
    nodes: &[Node],
    forms: &Forms,
    form: u32,
    facet: u32,
) -> Result<Option<Whole>, AllocError>
    requires there { form < length forms.now }
    ensures { IfOk result (λ n. option_map int_of n ≡ integer_in (facet_value nodes.now (form_at forms.now form) facet)) }
{
    match text_at(nodes, AttributeName::Value, facet) {
        Some(text) => forms.integer(alloc, form, text),
        None => Ok(None),
    }
}

/// The bound that a facet sets as the form at a place has it.
fn bound_at(
    alloc: Global,
    nodes: &[Node],
    forms: &Forms,
    form: u32,
    facet: u32,
) -> Result<Option<Bound>, AllocError>
    requires there { form < length forms.now }
    ensures { IfOk result (λ b. option_map stands_at b ≡ bound nodes.now (form_at forms.now form) facet) }
{
    let Some(n) = integer_at(alloc, nodes, forms, form, facet)? else {
        return Ok(None);
    };
    if is_at(nodes, Part::MinExclusive, facet) {
        Ok(Some(Bound::above(n)))
    } else if is_at(nodes, Part::MaxExclusive, facet) {
        Ok(Some(Bound::below(n)))
    } else {
        Ok(Some(Bound::of(n)))
    }
}

/// The bound from below that a restriction has, where its base has this one.
pub(crate) fn least_at(
    alloc: Global,
    document: &Document<'_>,
    forms: &Forms,
    form: u32,
    place: u32,
    first: Option<Bound>,
) -> Result<Option<Bound>, AllocError>
    requires there { form < length forms.now }
    ensures { IfOk result (λ b. option_map stands_at b ≡ greatest (option_map stands_at first) (map (bound document.now (form_at forms.now form)) (children document.now (part.MinInclusive ∷ part.MinExclusive ∷ []) place))) }
{
    let nodes = document.nodes();
    let facets = document.children(alloc, &[Part::MinInclusive, Part::MinExclusive], place)?;
    let mut least = first;
    for facet in &facets {
        least = greater(least, bound_at(alloc, nodes, forms, form, *facet)?);
    }
    Ok(least)
}

/// The bound from above that a restriction has, where its base has this one.
pub(crate) fn most_at(
    alloc: Global,
    document: &Document<'_>,
    forms: &Forms,
    form: u32,
    place: u32,
    first: Option<Bound>,
) -> Result<Option<Bound>, AllocError>
    requires there { form < length forms.now }
    ensures { IfOk result (λ b. option_map stands_at b ≡ least_among (option_map stands_at first) (map (bound document.now (form_at forms.now form)) (children document.now (part.MaxInclusive ∷ part.MaxExclusive ∷ []) place))) }
{
    let nodes = document.nodes();
    let facets = document.children(alloc, &[Part::MaxInclusive, Part::MaxExclusive], place)?;
    let mut most = first;
    for facet in &facets {
        most = smaller(most, bound_at(alloc, nodes, forms, form, *facet)?);
    }
    Ok(most)
}

/// The characters of the pattern that a facet sets; any where it has none.
fn pattern_at(alloc: Global, nodes: &[Node], facet: u32) -> Result<CharSet, AllocError>
    ensures { IfOk result (λ s. letters_in s ≡ letters_of (text_at nodes.now attribute.Value facet)) }
{
    match text_at(nodes, AttributeName::Value, facet) {
        Some(text) => chars_of(alloc, text),
        None => Ok(CharSet::Any),
    }
}

/// The characters that the patterns of one step leave together.
pub(crate) fn letters_at(
    alloc: Global,
    nodes: &[Node],
    facets: &[u32],
) -> Result<Letters, AllocError>
    ensures { IfOk result (λ l. l ≡ letters_among nodes.now (Some []) facets.now) }
{
    let mut letters = Letters::new(alloc);
    for facet in facets {
        letters.join(&pattern_at(alloc, nodes, *facet)?)?;
    }
    Ok(letters)
}

/// The value of a facet as the form at a place has it, which is no list.
fn value_at(
    alloc: Global,
    nodes: &[Node],
    forms: &Forms,
    form: u32,
    facet: u32,
) -> Result<Option<Val>, AllocError>
    requires there { form < length forms.now }
    requires item { is_list (form_at forms.now form) ≡ false }
    ensures { IfOk result (λ v. option_map seen v ≡ facet_value nodes.now (form_at forms.now form) facet) }
{
    match text_at(nodes, AttributeName::Value, facet) {
        Some(text) => forms.value(alloc, form, text),
        None => Ok(None),
    }
}

/// The values of facets as the form at a place has them, which is no list.
pub(crate) fn values_at(
    alloc: Global,
    nodes: &[Node],
    forms: &Forms,
    form: u32,
    facets: &[u32],
) -> Result<ValList, AllocError>
    requires there { form < length forms.now }
    requires item { is_list (form_at forms.now form) ≡ false }
    ensures { IfOk result (λ l. vals l ≡ flat_map (λ f. option_to_list (facet_value nodes.now (form_at forms.now form) f)) facets.now) }
{
    let mut values = ValList::new(alloc);
    for facet in facets {
        if let Some(value) = value_at(alloc, nodes, forms, form, *facet)? {
            values.push(value)?;
        }
    }
    Ok(values)
}
