//! The steps of all that is no group of elements.

ghost use Rattle.std.specs.Prelude.{◌≡◌, IfOk};
ghost use Rattle.std.specs.List.{flat_map};
ghost use Rattle.xsd_components.specs.References.{derivation};
ghost use Rattle.xsd_derivations.specs.Derivations.{derived_from};
ghost use Rattle.xsd_steps.specs.Steps.{step_to};
ghost use Rattle.xsd_steps.specs.Table.{own_steps};

use exi_gram::Items;
use std::alloc::{AllocError, Global};
use xsd_components::{Schema, TypeAt};
use xsd_derivations::{attribute_groups_named, derived_from, head_named};
use xsd_nodes::{Part, is_among_at, is_at, is_global};

/// The steps from the type at a place to those that it is derived from.
fn type_steps(
    alloc: Global,
    schema: &Schema<'_>,
    place: u32,
) -> Result<Items<Option<u32>>, AllocError>
    ensures { IfOk result (λ l. l ≡ flat_map step_to (derived_from schema.now (derivation schema.now place))) }
{
    let types = derived_from(alloc, schema, schema.derivation(place))?;
    let mut steps = Items::new(alloc);
    for one in types.as_slice() {
        match *one {
            Some(TypeAt::Node(base)) => steps.push(Some(base))?,
            Some(TypeAt::Built(_)) => {}
            None => steps.push(None)?,
        }
    }
    Ok(steps)
}

/// These places, as items.
fn items_of(alloc: Global, places: &[Option<u32>]) -> Result<Items<Option<u32>>, AllocError>
    ensures { IfOk result (λ l. l ≡ places.now) }
{
    let mut items = Items::new(alloc);
    for place in places {
        items.push(*place)?;
    }
    Ok(items)
}

/// The steps of the element at a place, where it is no group of elements.
pub(crate) fn own_steps(
    alloc: Global,
    schema: &Schema<'_>,
    place: u32,
) -> Result<Items<Option<u32>>, AllocError>
    ensures { IfOk result (λ l. l ≡ own_steps schema.now place) }
{
    let nodes = schema.document().nodes();
    let typed = [Part::SimpleType, Part::ComplexType, Part::Restriction];
    if is_among_at(nodes, &typed, place) {
        type_steps(alloc, schema, place)
    } else if is_at(nodes, Part::AttributeGroup, place) && is_global(nodes, place) {
        let named = attribute_groups_named(alloc, schema, place)?;
        items_of(alloc, named.as_slice())
    } else if is_at(nodes, Part::Element, place) && is_global(nodes, place) {
        let head = head_named(alloc, schema, place)?;
        items_of(alloc, head.as_slice())
    } else {
        Ok(Items::new(alloc))
    }
}
