//! The direct members of substitution groups, and all that are reached by them.

ghost use Rattle.std.specs.Prelude.{◌≡◌, ◌<◌, ◌^◌, [], All, IfOk, OnOk, length, replicate};
ghost use Rattle.xsd_model.specs.Parts.{IsBelow};
ghost use Rattle.exi_elements.specs.Members.{AreMembers, IsWalk, put_member};

use exi_gram::Items;
use std::alloc::{AllocError, Global};
use xsd_model::Components;

/// So many empty lists.
fn empty_lists(alloc: Global, count: usize) -> Result<Vec<Items<u32>>, AllocError>
    ensures { IfOk result (λ v. v.items ≡ replicate count []) }
{
    let mut lists = Vec::new(alloc);
    for _ in 0..count {
        lists.push(Items::new(alloc))?;
    }
    Ok(lists)
}

/// Puts a place among the members of its head, where it has one.
fn put_member(lists: &mut Vec<Items<u32>>, head: Option<u32>, place: u32) -> Result<(), AllocError>
    requires there { IsBelow (length lists.old.items) head }
    ensures { OnOk result (lists.new.items ≡ put_member head place lists.old.items) }
{
    if let Some(head) = head {
        lists[head as usize].push(place)?;
    }
    Ok(())
}

/// The direct members of each element's substitution group.
pub(crate) fn members_of(alloc: Global, parts: &Components) -> Result<Vec<Items<u32>>, AllocError>
    requires few { length parts.now.elements < 2 ^ 32 }
    ensures { IfOk result (λ v. AreMembers parts.now v.items) }
{
    let elements = parts.elements();
    let mut lists = empty_lists(alloc, elements.len())?;
    for place in 0..elements.len() {
        put_member(&mut lists, elements[place].head, place as u32)?;
    }
    Ok(lists)
}

/// These, and behind each its direct members.
pub(crate) fn walked(members: &[Items<u32>], starts: Vec<u32>) -> Result<Vec<u32>, AllocError>
    requires starts { All (λ place. place < length members.now) starts.items }
    requires members { All (All (λ place. place < length members.now)) members.now }
    ensures { IfOk result (λ v. IsWalk members.now starts.items v.items) }
{
    let mut walk = starts;
    let mut index = 0;
    while index < walk.len() {
        let place = walk[index];
        walk.extend_from_slice(members[place as usize].as_slice())?;
        index += 1;
    }
    Ok(walk)
}
