ghost use Rattle.std.specs.Prelude.{◌≡◌, IfOk, OnOk};
ghost use Rattle.xsd_steps.specs.Groups.{group_named};
ghost use Rattle.xsd_steps.specs.Steps.{steps};
ghost use Rattle.xsd_steps.specs.Table.{AreOwnSteps, group_only, namer, put};

use crate::own_steps::own_steps;
use crate::owners::owners_of;
use exi_gram::Items;
use std::alloc::{AllocError, Global};
use std::marker::Model;
use xsd_components::Schema;
use xsd_nodes::{AttributeName, Part, is_at, is_global};
use xsd_tree::Node;

/// A schema document with the steps of each of its elements.
#[derive(Debug, Drop)]
pub struct Steps<'a> {
    schema: &'a Schema<'a>,
    lists: Vec<Items<Option<u32>>>,
}

impl<'a> Model for Steps<'a> {
    ghost use Rattle.std.specs.Prelude.{List};
    ghost use Rattle.xsd_steps.specs.Table.{AreSteps};
    ghost use Rattle.xsd_tree.specs.declared.node.Node.{Node};

    ghost Value = { List Node };

    ghost view = { λ s. s.schema.now };

    ghost invariant = { λ s. AreSteps s.schema.now s.lists.items };
}

/// The place, where a group of elements stands there that is a component.
fn group_only(nodes: &[Node], place: Option<u32>) -> Option<u32>
    ensures { result ≡ group_only nodes.now place }
{
    match place {
        Some(place) => {
            if is_at(nodes, Part::Group, place) && is_global(nodes, place) {
                Some(place)
            } else {
                None
            }
        }
        None => None,
    }
}

/// The group that names one by the element at a place, which lies in this.
fn namer(nodes: &[Node], place: u32, around: Option<u32>) -> Option<u32>
    ensures { result ≡ namer nodes.now place around }
{
    if is_at(nodes, Part::Group, place) {
        group_only(nodes, around)
    } else {
        None
    }
}

/// Puts what the element at a place names among the steps of a group.
fn put(
    alloc: Global,
    schema: &Schema<'_>,
    lists: &mut Vec<Items<Option<u32>>>,
    group: Option<u32>,
    place: u32,
) -> Result<(), AllocError>
    ensures { OnOk result (lists.new.items ≡ put group (group_named schema.now place) lists.old.items) }
{
    if let Some(group) = group {
        if (group as usize) < lists.len() {
            let named = schema.text_names(alloc, &[Part::Group], place, AttributeName::Ref)?;
            lists[group as usize].push(named)?;
        }
    }
    Ok(())
}

/// The steps of each element that is no group of elements, and none of each group.
fn all_own_steps(alloc: Global, schema: &Schema<'_>) -> Result<Vec<Items<Option<u32>>>, AllocError>
    ensures { IfOk result (λ v. AreOwnSteps schema.now v.items) }
{
    let mut lists = Vec::new(alloc);
    for place in 0..schema.document().nodes().len() {
        lists.push(own_steps(alloc, schema, place as u32)?)?;
    }
    Ok(lists)
}

impl<'a> Steps<'a> {
    /// The steps of a schema.
    ///
    /// # Errors
    ///
    /// `AllocError` where memory is refused.
    pub fn of(alloc: Global, schema: &'a Schema<'a>) -> Result<Steps<'a>, AllocError>
        ensures { IfOk result (λ s. s ≡ schema.now) }
    {
        let nodes = schema.document().nodes();
        let owners = owners_of(alloc, nodes)?;
        let mut lists = all_own_steps(alloc, schema)?;
        for (place, owner) in owners.iter().enumerate() {
            let group = namer(nodes, place as u32, *owner);
            put(alloc, schema, &mut lists, group, place as u32)?;
        }
        Ok(Steps { schema, lists })
    }

    /// The schema.
    pub fn schema(&self) -> &Schema<'a>
        ensures { result.now ≡ self.now }
    {
        self.schema
    }

    /// Where the paths of the element at a place lead in one step, in order; nothing stands for what is not there.
    pub fn steps(&self, place: u32) -> &[Option<u32>]
        ensures { result.now ≡ steps self.now place }
    {
        match self.lists.get(place as usize) {
            Some(list) => list.as_slice(),
            None => &[],
        }
    }
}
