ghost use Rattle.std.specs.Prelude.{◌≡◌, ◌≤◌, ◌^◌, [], All, IfOk, OnOk, get_or, length};
ghost use Rattle.xsd_document.specs.Held.{held, put};
ghost use Rattle.xsd_nodes.specs.Nodes.{child, children};
ghost use Rattle.xsd_tree.specs.Trees.{IsTree};

use exi_gram::Items;
use std::alloc::{AllocError, Global};
use std::marker::Model;
use xsd_nodes::{Part, is_among_at};
use xsd_tree::{Node, Tree};

/// A schema document: its elements, seen as the list of them, with what each of them holds.
#[derive(Debug, Drop)]
pub struct Document<'a> {
    nodes: &'a [Node],
    held: Vec<Items<u32>>,
}

impl<'a> Model for Document<'a> {
    ghost use Rattle.std.specs.Prelude.{List};
    ghost use Rattle.xsd_document.specs.Held.{IsHeld};
    ghost use Rattle.xsd_tree.specs.Trees.{IsTree};
    ghost use Rattle.xsd_tree.specs.declared.node.Node.{Node};

    ghost Value = { List Node };

    ghost view = { λ d. d.nodes.now };

    ghost invariant = { λ d. IsTree d.nodes.now × IsHeld d.nodes.now d.held.items };
}

/// So many empty lists.
fn empty_lists(alloc: Global, count: usize) -> Result<Vec<Items<u32>>, AllocError>
    ensures count { IfOk result (λ v. length v.items ≡ count) }
    ensures empty { IfOk result (λ v. All (λ l. l ≡ []) v.items) }
{
    let mut lists = Vec::new(alloc);
    for _ in 0..count {
        lists.push(Items::new(alloc))?;
    }
    Ok(lists)
}

/// Puts a place among those that its parent holds.
fn put(held: &mut Vec<Items<u32>>, parent: Option<u32>, place: u32) -> Result<(), AllocError>
    ensures { OnOk result (held.new.items ≡ put parent place held.old.items) }
{
    if let Some(parent) = parent {
        if (parent as usize) < held.len() {
            held[parent as usize].push(place)?;
        }
    }
    Ok(())
}

impl<'a> Document<'a> {
    /// The document of a tree.
    ///
    /// # Errors
    ///
    /// `AllocError` where memory is refused.
    pub fn of(alloc: Global, tree: &'a Tree) -> Result<Document<'a>, AllocError>
        ensures { IfOk result (λ d. d ≡ tree.now) }
    {
        let nodes = tree.nodes();
        let mut held = empty_lists(alloc, nodes.len())?;
        for (place, node) in nodes.iter().enumerate() {
            put(&mut held, node.parent, place as u32)?;
        }
        Ok(Document { nodes, held })
    }

    /// The elements.
    pub fn nodes(&self) -> &[Node]
        ensures nodes { result.now ≡ self.now }
        ensures tree { IsTree self.now }
    {
        self.nodes
    }

    /// The places of all that the element at a place holds directly, in order.
    pub fn held(&self, place: u32) -> &[u32]
        ensures { result.now ≡ held self.now place }
    {
        match self.held.get(place as usize) {
            Some(list) => list.as_slice(),
            None => &[],
        }
    }

    /// The places of those that the element at a place holds directly and that are one of these parts, in order.
    ///
    /// # Errors
    ///
    /// `AllocError` where memory is refused.
    pub fn children(
        &self,
        alloc: Global,
        parts: &[Part],
        place: u32,
    ) -> Result<Vec<u32>, AllocError>
        ensures { IfOk result (λ v. v.items ≡ children self.now parts.now place) }
    {
        let held = self.held(place);
        let nodes = self.nodes();
        let mut found = Vec::new(alloc);
        for one in held {
            if is_among_at(nodes, parts, *one) {
                found.push(*one)?;
            }
        }
        Ok(found)
    }

    /// The place of the first that the element at a place holds directly and that is one of these parts.
    pub fn child(&self, parts: &[Part], place: u32) -> Option<u32>
        ensures { result ≡ child self.now parts.now place }
    {
        let held = self.held(place);
        let nodes = self.nodes();
        for one in held {
            if is_among_at(nodes, parts, *one) {
                return Some(*one);
            }
        }
        None
    }
}
