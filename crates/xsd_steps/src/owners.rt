//! What each element lies in, with nothing but `sequence`, `choice` and `all` between.

ghost use Rattle.std.specs.Prelude.{◌≡◌, IfOk};
ghost use Rattle.xsd_steps.specs.Table.{AreOwners, owner_by};
ghost use Rattle.xsd_tree.specs.Trees.{IsTree};

use std::alloc::{AllocError, Global};
use xsd_nodes::{Part, is_among_at};
use xsd_tree::Node;

/// What an element lies in whose parent is this, by what those before it lie in.
fn owner_by(nodes: &[Node], owners: &[Option<u32>], parent: Option<u32>) -> Option<u32>
    ensures { result ≡ owner_by nodes.now owners.now parent }
{
    match parent {
        Some(place) => {
            if is_among_at(nodes, &[Part::Sequence, Part::Choice, Part::All], place) {
                match owners.get(place as usize) {
                    Some(owner) => *owner,
                    None => None,
                }
            } else {
                Some(place)
            }
        }
        None => None,
    }
}

/// What each element of a tree lies in. A parent stands before what it holds, so that one pass finds them.
pub(crate) fn owners_of(alloc: Global, nodes: &[Node]) -> Result<Vec<Option<u32>>, AllocError>
    requires tree { IsTree nodes.now }
    ensures { IfOk result (λ v. AreOwners nodes.now v.items) }
{
    let mut owners = Vec::new(alloc);
    for node in nodes {
        let owner = owner_by(nodes, owners.as_slice(), node.parent);
        owners.push(owner)?;
    }
    Ok(owners)
}
