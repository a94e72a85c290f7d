//! Elements in the order of their names.

ghost use Rattle.std.specs.Prelude.{◌≡◌, ◌<◌, ◌^◌, All, IfOk, length, map};
ghost use Rattle.exi_gram.specs.Orders.{in_order};
ghost use Rattle.exi_order.specs.Keys.{keys_of};
ghost use Rattle.exi_elements.specs.StandIns.{element_before, element_pair};

use exi_gram::Items;
use exi_order::{Key, places_in_order};
use std::alloc::{AllocError, Global};
use xsd_model::Components;

/// The names of the elements at these places.
fn keys_of<'a>(
    alloc: Global,
    parts: &'a Components,
    places: &[u32],
) -> Result<Vec<Key<'a>>, AllocError>
    requires there { All (λ place. place < length parts.now.elements) places.now }
    ensures { IfOk result (λ v. keys_of v.items ≡ map (element_pair parts.now) places.now) }
{
    let elements = parts.elements();
    let mut keys = Vec::with_capacity(alloc, places.len())?;
    for place in places {
        let name = &elements[*place as usize].name;
        keys.push(Key {
            first: &name.local,
            second: &name.uri,
        })?;
    }
    Ok(keys)
}

/// These elements by the local name, then by the URI.
pub(crate) fn by_name(
    alloc: Global,
    parts: &Components,
    places: &[u32],
) -> Result<Items<u32>, AllocError>
    requires few { length places.now < 2 ^ 32 }
    requires there { All (λ place. place < length parts.now.elements) places.now }
    ensures { IfOk result (λ l. l ≡ in_order (element_before parts.now) places.now) }
{
    let keys = keys_of(alloc, parts, places)?;
    let sorted = places_in_order(alloc, keys.as_slice())?;
    let mut named = Items::new(alloc);
    for index in sorted.iter() {
        named.push(places[*index as usize])?;
    }
    Ok(named)
}
