//! The order in which the elements of a document stand.

ghost use Rattle.std.specs.Prelude.{◌≡◌, ◌+◌, ◌≤◌, ◌^◌, All, IfOk, length};
ghost use Rattle.xsd_slots.specs.Orders.{before_at, raised, reached_by};
ghost use Rattle.xsd_slots.specs.Slots.{is_misplaced, is_told_twice, is_unknown, later};
ghost use Rattle.xsd_nodes.specs.Nodes.{parent_at};

use crate::slot::{own_in, slot_in};
use std::alloc::{AllocError, Global};
use std::marker::Model;
use xsd_nodes::{AttributeName, Part, holder, is_among_at, is_at, is_part, parent_at, text_at};
use xsd_tree::{Node, Tree};

/// The elements of a document, seen as the list of them, each with the slot to which what stands before it has come.
#[derive(Debug, Drop)]
pub struct Order<'a> {
    nodes: &'a [Node],
    before: Vec<u32>,
}

impl<'a> Model for Order<'a> {
    ghost use Rattle.std.specs.Prelude.{List};
    ghost use Rattle.xsd_slots.specs.Orders.{AreBefore};
    ghost use Rattle.xsd_tree.specs.declared.node.Node.{Node};

    ghost Value = { List Node };

    ghost view = { λ o. o.nodes.now };

    ghost invariant = { λ o. AreBefore o.nodes.now o.before.items };
}

/// So many zeros.
fn zeros(alloc: Global, count: usize) -> Result<Vec<u32>, AllocError>
    ensures count { IfOk result (λ v. length v.items ≡ count) }
    ensures zero { IfOk result (λ v. All (λ n. n ≡ 0) v.items) }
{
    let mut numbers = Vec::new(alloc);
    for _ in 0..count {
        numbers.push(0)?;
    }
    Ok(numbers)
}

/// The slot to which what a parent holds has come.
fn reached_by(reached: &[u32], parent: Option<u32>) -> u32
    ensures { result ≡ reached_by reached.now parent }
{
    match parent {
        Some(parent) => match reached.get(parent as usize) {
            Some(slot) => *slot,
            None => 0,
        },
        None => 0,
    }
}

/// The later of two slots.
fn later(slot: u32, other: u32) -> u32
    ensures { result ≡ later slot other }
{
    if slot < other { other } else { slot }
}

/// Brings what holds an element to the element's slot.
fn raise(reached: &mut Vec<u32>, nodes: &[Node], parent: Option<u32>, place: u32)
    ensures { reached.new.items ≡ raised nodes.now parent place reached.old.items }
{
    if let Some(parent) = parent {
        if (parent as usize) < reached.len() {
            let own = own_in(nodes, parent, place);
            reached[parent as usize] = later(reached[parent as usize], own);
        }
    }
}

/// Whether one element holds another although it refers to a component, or names the type that the other one would be.
fn is_told_twice(nodes: &[Node], parent: u32, place: u32) -> bool
    ensures { result ≡ is_told_twice nodes.now parent place }
{
    let refers = [
        Part::Element,
        Part::Attribute,
        Part::Group,
        Part::AttributeGroup,
    ];
    let typed = [Part::Element, Part::Attribute];
    let types = [Part::SimpleType, Part::ComplexType];
    (is_among_at(nodes, &refers, parent) && text_at(nodes, AttributeName::Ref, parent).is_some())
        || (is_among_at(nodes, &typed, parent)
            && is_among_at(nodes, &types, place)
            && text_at(nodes, AttributeName::Type, parent).is_some())
        || (is_at(nodes, Part::Restriction, parent)
            && is_part(Part::SimpleType, holder(nodes, parent))
            && is_at(nodes, Part::SimpleType, place)
            && text_at(nodes, AttributeName::Base, parent).is_some())
        || (is_at(nodes, Part::List, parent)
            && text_at(nodes, AttributeName::ItemType, parent).is_some())
}

impl<'a> Order<'a> {
    /// The order of a tree's elements.
    ///
    /// # Errors
    ///
    /// `AllocError` where memory is refused.
    pub fn of(alloc: Global, tree: &'a Tree) -> Result<Order<'a>, AllocError>
        ensures { IfOk result (λ o. o ≡ tree.now) }
    {
        let nodes = tree.nodes();
        let mut reached = zeros(alloc, nodes.len())?;
        let mut before = Vec::new(alloc);
        for (place, node) in nodes.iter().enumerate() {
            before.push(reached_by(reached.as_slice(), node.parent))?;
            raise(&mut reached, nodes, node.parent, place as u32);
        }
        Ok(Order { nodes, before })
    }

    /// Whether one element holds another where it may not stand.
    fn is_misplaced(&self, parent: u32, place: u32) -> bool
        requires held { parent_at self.now place ≡ Some parent }
        ensures { result ≡ is_misplaced self.now parent place }
    {
        match slot_in(self.nodes, parent, place) {
            Some(slot) => match self.before.get(place as usize) {
                Some(before) => slot.after < *before,
                None => false,
            },
            None => true,
        }
    }

    /// Whether the element at a place stands where none of its kind may, or within one that refers to a component or that
    /// names the type that it would be. It is asked of what stands outside annotations.
    pub fn is_unknown(&self, place: u32) -> bool
        ensures { result ≡ is_unknown self.now place }
    {
        match parent_at(self.nodes, place) {
            Some(parent) => {
                self.is_misplaced(parent, place) || is_told_twice(self.nodes, parent, place)
            }
            None => false,
        }
    }
}
