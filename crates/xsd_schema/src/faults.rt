//! What is wrong with a schema document first.

ghost use Rattle.std.specs.Prelude.{◌≡◌, IfOk};
ghost use Rattle.xsd_schema.specs.Shown.{first_from};
ghost use Rattle.xsd_schema.specs.Shows.{shows_at};

use crate::conditions::Conditions;
use std::alloc::{AllocError, Global};
use xsd_circles::Circles;
use xsd_model::SchemaFault;
use xsd_simple::Simples;
use xsd_slots::Order;
use xsd_tree::Tree;
use xsd_type_wildcards::TypeWildcards;

/// The first element that shows something wrong.
fn first_fault(
    alloc: Global,
    simples: &Simples<'_>,
    conditions: &Conditions<'_>,
    joined: bool,
) -> Result<Option<SchemaFault>, AllocError>
    requires same { conditions.now ≡ simples.now.nodes }
    ensures { IfOk result (λ f. f ≡ first_from (shows_at joined simples.now.nodes) 0 simples.now.nodes) }
{
    let nodes = simples.schema().document().nodes();
    for (place, node) in nodes.iter().enumerate() {
        if let Some(kind) = conditions.shows(alloc, joined, place as u32)? {
            let event = node.event;
            return Ok(Some(SchemaFault { kind, event }));
        }
    }
    Ok(None)
}

/// What is wrong with the document first; `joined` where others are joined to it.
pub(crate) fn fault_of(
    alloc: Global,
    tree: &Tree,
    simples: &Simples<'_>,
    wildcards: &TypeWildcards<'_>,
    joined: bool,
) -> Result<Option<SchemaFault>, AllocError>
    requires tree { tree.now ≡ simples.now.nodes }
    requires wildcards { wildcards.now ≡ simples.now.nodes }
    ensures { IfOk result (λ f. f ≡ first_from (shows_at joined simples.now.nodes) 0 simples.now.nodes) }
{
    let order = Order::of(alloc, tree)?;
    let circles = Circles::of(alloc, simples.paths().steps())?;
    let conditions = Conditions::new(&order, simples, &circles, wildcards);
    first_fault(alloc, simples, &conditions, joined)
}
