//! Places in the order of the names.

ghost use Rattle.std.specs.Prelude.{◌≡◌, ◌+◌, ◌<◌, ◌≤◌, ◌^◌, ℕ, [], All, IfOk, length, map};
ghost use Rattle.exi_gram.specs.Orders.{in_order};
ghost use Rattle.exi_order.specs.Keys.{keys_of};
ghost use Rattle.exi_elements.specs.StandIns.{element_before};
ghost use Rattle.exi_vocabulary.specs.FirstNames.{IsOfSize};
ghost use Rattle.exi_vocabulary.specs.Vocabulary.{attribute_name, element_name, firsts_from, global_places_from, names_in_order, place_before};

use crate::name::Name;
use crate::names::{attribute_keys, element_keys};
use exi_gram::Items;
use exi_order::{Key, places_in_order};
use indexmap::IndexSet;
use std::alloc::{AllocError, Global};
use xsd_model::{Components, ElementDecl};

/// These places in the order of the names that stand at them.
fn sorted_places(alloc: Global, keys: &[Key<'_>], places: &[u32]) -> Result<Items<u32>, AllocError>
    requires within { All (λ p. p < length keys.now) places.now }
    requires few { length places.now < 2 ^ 32 }
    ensures { IfOk result (λ l. l ≡ in_order (place_before (keys_of keys.now)) places.now) }
{
    let mut chosen = Vec::with_capacity(alloc, places.len())?;
    for place in places {
        chosen.push(keys[*place as usize])?;
    }
    let mut sorted = Items::new(alloc);
    for place in places_in_order(alloc, chosen.as_slice())?.as_slice() {
        sorted.push(places[*place as usize])?;
    }
    Ok(sorted)
}

/// The places of those that come first with their name.
fn firsts(alloc: Global, keys: &[Key<'_>]) -> Result<Vec<u32>, AllocError>
    requires few { length keys.now < 2 ^ 32 }
    ensures firsts { IfOk result (λ places. places.items ≡ firsts_from [] 0 (keys_of keys.now)) }
{
    let mut names = IndexSet::new(alloc);
    let mut firsts = Vec::new(alloc);
    for (place, key) in keys.iter().enumerate() {
        let (_, new) = names.insert_full(Name {
            local: key.first,
            uri: key.second,
        })?;
        if new {
            firsts.push(place as u32)?;
        }
    }
    Ok(firsts)
}

/// Of each name the place where it comes first, in the order of the names.
fn names_in_order(alloc: Global, keys: &[Key<'_>]) -> Result<Items<u32>, AllocError>
    requires few { length keys.now < 2 ^ 32 }
    ensures { IfOk result (λ places. places ≡ names_in_order (keys_of keys.now)) }
{
    let firsts = firsts(alloc, keys)?;
    sorted_places(alloc, keys, firsts.as_slice())
}

/// Of each name that elements have anywhere the place of the first declaration, in the order of the names.
///
/// # Errors
///
/// `AllocError` where memory is refused.
pub fn element_names(alloc: Global, parts: &Components) -> Result<Items<u32>, AllocError>
    requires size { IsOfSize parts.now }
    ensures { IfOk result (λ places. places ≡ names_in_order (map element_name parts.now.elements)) }
{
    let keys = element_keys(alloc, parts.elements())?;
    names_in_order(alloc, keys.as_slice())
}

/// Of each name that attributes have anywhere the place of the first declaration, in the order of the names.
///
/// # Errors
///
/// `AllocError` where memory is refused.
pub fn attribute_names(alloc: Global, parts: &Components) -> Result<Items<u32>, AllocError>
    requires size { IsOfSize parts.now }
    ensures { IfOk result (λ places. places ≡ names_in_order (map attribute_name parts.now.attributes)) }
{
    let keys = attribute_keys(alloc, parts.attributes())?;
    names_in_order(alloc, keys.as_slice())
}

/// The places of those that are global.
fn globals(alloc: Global, elements: &[ElementDecl]) -> Result<Vec<u32>, AllocError>
    requires few { length elements.now < 2 ^ 32 }
    ensures { IfOk result (λ places. places.items ≡ global_places_from 0 elements.now) }
{
    let mut places = Vec::new(alloc);
    for (place, element) in elements.iter().enumerate() {
        if element.global {
            places.push(place as u32)?;
        }
    }
    Ok(places)
}

/// The places of the global elements, in the order of their names.
///
/// # Errors
///
/// `AllocError` where memory is refused.
pub fn global_elements(alloc: Global, parts: &Components) -> Result<Items<u32>, AllocError>
    requires size { IsOfSize parts.now }
    ensures { IfOk result (λ places. places ≡ in_order (element_before parts.now) (global_places_from 0 parts.now.elements)) }
{
    let elements = parts.elements();
    let keys = element_keys(alloc, elements)?;
    let globals = globals(alloc, elements)?;
    sorted_places(alloc, keys.as_slice(), globals.as_slice())
}
