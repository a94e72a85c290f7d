//! How many elements before each are of a kind.

ghost use Rattle.std.specs.Prelude.{◌≡◌, ◌≤◌, ◌^◌, IfOk, length};
ghost use Rattle.xsd_places.specs.Counted.{IsCounted};
ghost use Rattle.xsd_places.specs.Kinds.{is_kind, place_of};

use crate::kind::{Kind, is_kind};
use std::alloc::{AllocError, Global};
use xsd_tree::Node;

/// How many before each element, and how many in all.
#[derive(Debug, Drop)]
pub(crate) struct Counts {
    pub(crate) before: Vec<u32>,
    pub(crate) all: u32,
}

/// How many elements before each are of a kind.
pub(crate) fn counts_of(alloc: Global, kind: Kind, nodes: &[Node]) -> Result<Counts, AllocError>
    requires few { length nodes.now ≤ 2 ^ 28 }
    ensures { IfOk result (λ c. IsCounted (is_kind kind nodes.now) (length nodes.now) c) }
{
    let mut before = Vec::new(alloc);
    let mut all = 0;
    for place in 0..nodes.len() {
        before.push(all)?;
        if is_kind(kind, nodes, place as u32) {
            all += 1;
        }
    }
    Ok(Counts { before, all })
}

/// How many before the element at a place are of a kind.
pub(crate) fn count_at(counts: &Counts, kind: Kind, nodes: &[Node], place: u32) -> u32
    requires counted { IsCounted (is_kind kind nodes.now) (length nodes.now) counts.now }
    ensures { result ≡ place_of kind nodes.now place }
{
    match counts.before.get(place as usize) {
        Some(count) => *count,
        None => counts.all,
    }
}
