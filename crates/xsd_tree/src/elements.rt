//! The elements of a document from its events.

ghost use Rattle.std.specs.Prelude.{◌≡◌, ◌≤◌, ◌^◌, length, map, reverse, IfOk};
ghost use Rattle.exi_names.specs.Events.{happens};
ghost use Rattle.xsd_model.specs.Faults.{Gives};
ghost use Rattle.xsd_tree.specs.Reading.{innermost, may_start, node_of, nodes_of, not_schema};
ghost use Rattle.xsd_tree.specs.Trees.{is_schema};

use crate::node::{Node, Tree};
use crate::start_tag::{attributes_of, scope_of};
use exi_gram::Items;
use exi_names::{Event, QName};
use std::alloc::{AllocError, Global};
use xsd_model::{SchemaFault, SchemaKind, SchemaStop};

/// The namespace of XML Schema.
const XSD: &str = "http://www.w3.org/2001/XMLSchema";

/// Whether this names the element `schema` of XML Schema.
fn is_schema(name: &QName) -> bool
    ensures { result ≡ is_schema name.now }
{
    name.uri.as_str() == XSD && name.local.as_str() == "schema"
}

/// What is no schema document, at this event.
fn not_schema(event: usize) -> SchemaFault
    ensures { result ≡ not_schema event }
{
    SchemaFault {
        kind: SchemaKind::NotSchema,
        event: event as u64,
    }
}

/// The innermost of the elements that are open.
fn innermost(open_nodes: &[u32]) -> Option<u32>
    ensures { result ≡ innermost (reverse open_nodes.now) }
{
    open_nodes.last().copied()
}

/// Whether an element may start within this parent, where so many came before: within another, or as the first, where it
/// is `schema`.
fn may_start(name: &QName, parent: Option<u32>, place: usize) -> bool
    ensures { result ≡ may_start name.now parent place }
{
    match parent {
        None => place == 0 && is_schema(name),
        Some(_) => true,
    }
}

/// The element of this name, parent and event, before these events.
fn node(
    alloc: Global,
    name: &QName,
    parent: Option<u32>,
    event: u64,
    behind: &[Event],
) -> Result<Node, AllocError>
    ensures { IfOk result (λ n. n ≡ node_of name.now parent event (map happens behind.now)) }
{
    Ok(Node {
        name: name.copy()?,
        attributes: attributes_of(alloc, behind)?,
        scope: scope_of(alloc, behind)?,
        parent,
        event,
    })
}

/// The elements of a schema document in the order of their starts.
///
/// Events are counted from 1. An attribute whose value is no text, as that of `xsi:type`, is left out.
///
/// # Errors
///
/// `NotSchema` where the first element is not `schema` of XML Schema, a second root follows it or an end ends nothing, at
/// that event; and where there is no element or one stays open, at the last event. `Memory` where memory is refused.
pub fn tree(alloc: Global, events: &[Event]) -> Result<Tree, SchemaStop>
    requires few { length events.now ≤ 2 ^ 28 }
    ensures { Gives (λ t. t) result (nodes_of (map happens events.now)) }
{
    let mut nodes = Items::new(alloc);
    let mut open_nodes: Vec<u32> = Vec::new(alloc);
    for (index, event) in events.iter().enumerate() {
        match event {
            Event::Se(name) => {
                let place = nodes.as_slice().len();
                let parent = innermost(open_nodes.as_slice());
                if !may_start(name, parent, place) {
                    return Err(SchemaStop::Fault(not_schema(index + 1)));
                }
                nodes.push(node(alloc, name, parent, index as u64 + 1, &events[index + 1..])?)?;
                open_nodes.push(place as u32)?;
            }
            Event::Ee => {
                if open_nodes.as_slice().is_empty() {
                    return Err(SchemaStop::Fault(not_schema(index + 1)));
                }
                open_nodes.pop();
            }
            _ => {}
        }
    }
    if nodes.as_slice().is_empty() || !open_nodes.as_slice().is_empty() {
        return Err(SchemaStop::Fault(not_schema(events.len())));
    }
    Ok(Tree::of(nodes))
}
