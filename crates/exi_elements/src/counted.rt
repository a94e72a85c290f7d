//! How many elements may stand for each.

ghost use Rattle.std.specs.Prelude.{◌≡◌, ◌<◌, ◌+◌, ◌^◌, All, IfOk, get_or, length};
ghost use Rattle.std.specs.List.{sum_by};
ghost use Rattle.exi_elements.specs.Members.{AreCounts, AreMembers, roots};

use crate::members::walked;
use exi_gram::Items;
use std::alloc::{AllocError, Global};
use xsd_model::Components;

/// The elements that stand for no other.
fn roots_of(alloc: Global, parts: &Components) -> Result<Vec<u32>, AllocError>
    requires few { length parts.now.elements < 2 ^ 32 }
    ensures { IfOk result (λ v. v.items ≡ roots parts.now) }
{
    let elements = parts.elements();
    let mut places = Vec::new(alloc);
    for place in 0..elements.len() {
        if elements[place].head.is_none() {
            places.push(place as u32)?;
        }
    }
    Ok(places)
}

/// One, and what these count.
fn total(counts: &[u32], places: &[u32]) -> u32
    requires there { All (λ place. place < length counts.now) places.now }
    requires few { 1 + sum_by (λ place. get_or counts.now place 0) places.now < 2 ^ 32 }
    ensures { result ≡ 1 + sum_by (λ place. get_or counts.now place 0) places.now }
{
    let mut total = 1;
    for place in places {
        total += counts[*place as usize];
    }
    total
}

/// How many elements may stand for each. Each is counted behind its members, so once.
pub(crate) fn counts_of(
    alloc: Global,
    parts: &Components,
    members: &[Items<u32>],
) -> Result<Vec<u32>, AllocError>
    requires few { length parts.now.elements < 2 ^ 32 }
    requires members { AreMembers parts.now members.now }
    ensures { IfOk result (λ v. AreCounts parts.now v.items) }
{
    let order = walked(members, roots_of(alloc, parts)?)?;
    let mut counts = vec![in alloc; 0; parts.elements().len()]?;
    let mut index = order.len();
    while 0 < index {
        index -= 1;
        let place = order[index] as usize;
        counts[place] = total(counts.as_slice(), members[place].as_slice());
    }
    Ok(counts)
}
