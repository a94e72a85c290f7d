//! Types and elements in the order of the document, and where their grammars stand.

ghost use Rattle.std.specs.Prelude.{◌≡◌, ◌+◌, ◌*◌, ◌<◌, ◌≤◌, ◌^◌, IfOk, length, map, suc};
ghost use Rattle.exi_compiled.specs.Compiled.{in_document};
ghost use Rattle.exi_compile.specs.Order.{IsNext, element_places_from, item, type_places_from};

use std::alloc::{AllocError, Global};
use xsd_model::{ElementDecl, TypeDef};

/// A type or an element, by its place.
#[derive(Clone, Copy, Debug)]
pub(crate) enum Item {
    /// The type at a place.
    Type(u32),
    /// The element at a place.
    Element(u32),
}

/// Of the types and the elements from these places on, which there are, the first in the document.
fn next_item(types: &[TypeDef], elements: &[ElementDecl], of: usize, element: usize) -> Item
    requires types { of ≤ length types.now }
    requires elements { element ≤ length elements.now }
    requires few { length types.now + length elements.now ≤ 2 ^ 28 }
    requires some { of + element < length types.now + length elements.now }
    ensures { IsNext types.now elements.now of element result }
{
    match (types.get(of), elements.get(element)) {
        (Some(one), Some(other)) => {
            if one.event <= other.event {
                Item::Type(of as u32)
            } else {
                Item::Element(element as u32)
            }
        }
        (Some(_), None) => Item::Type(of as u32),
        (None, _) => Item::Element(element as u32),
    }
}

/// Types and elements in the order of the document.
pub(crate) fn in_document(
    alloc: Global,
    types: &[TypeDef],
    elements: &[ElementDecl],
) -> Result<Vec<Item>, AllocError>
    requires few { length types.now + length elements.now ≤ 2 ^ 28 }
    ensures { IfOk result (λ items. map item items.items
        ≡ in_document (suc (length types.now + length elements.now)) 0 types.now 0 elements.now) }
{
    let mut items = Vec::with_capacity(alloc, types.len() + elements.len())?;
    let mut of = 0;
    let mut element = 0;
    for _ in 0..types.len() + elements.len() {
        let next = next_item(types, elements, of, element);
        items.push(next)?;
        match next {
            Item::Type(_) => of += 1,
            Item::Element(_) => element += 1,
        }
    }
    Ok(items)
}

/// Where the grammar of each type stands: two for each item stand behind the first two.
pub(crate) fn type_places(alloc: Global, items: &[Item]) -> Result<Vec<u32>, AllocError>
    requires few { length items.now ≤ 2 ^ 28 }
    ensures { IfOk result (λ places. places.items ≡ type_places_from 2 (map item items.now)) }
{
    let mut places = Vec::new(alloc);
    for (place, one) in items.iter().enumerate() {
        match one {
            Item::Type(_) => places.push(2 + 2 * place as u32)?,
            Item::Element(_) => {}
        }
    }
    Ok(places)
}

/// Where the grammar of each element stands.
pub(crate) fn element_places(alloc: Global, items: &[Item]) -> Result<Vec<u32>, AllocError>
    requires few { length items.now ≤ 2 ^ 28 }
    ensures { IfOk result (λ places. places.items ≡ element_places_from 2 (map item items.now)) }
{
    let mut places = Vec::new(alloc);
    for (place, one) in items.iter().enumerate() {
        match one {
            Item::Type(_) => {}
            Item::Element(_) => places.push(2 + 2 * place as u32)?,
        }
    }
    Ok(places)
}
