//! What is wrong with one element of a schema document.

ghost use Rattle.std.specs.Prelude.{◌≡◌, ◌<◌, IfOk, length};
ghost use Rattle.xsd_schema.specs.Shows.{shows_at};

use crate::conditions::Conditions;
use std::alloc::{AllocError, Global};
use xsd_circles::Circles;
use xsd_components::Schema;
use xsd_model::SchemaKind;
use xsd_paths::Paths;
use xsd_simple::Simples;
use xsd_slots::Order;
use xsd_steps::Steps;
use xsd_tree::Tree;
use xsd_type_wildcards::TypeWildcards;
use xsd_values::Values;

/// The first thing that is wrong with the element at a place, by what the documents' elements name.
fn first_shown(
    alloc: Global,
    order: &Order,
    steps: &Steps<'_>,
    paths: &Paths<'_>,
    place: u32,
    joined: bool,
) -> Result<Option<SchemaKind>, AllocError>
    requires there { place < length order.now }
    requires steps { steps.now ≡ order.now }
    requires paths { paths.now ≡ order.now }
    ensures { IfOk result (λ k. k ≡ shows_at joined order.now place) }
{
    let values = Values::of(alloc, paths)?;
    let simples = Simples::of(alloc, &values)?;
    let wildcards = TypeWildcards::of(alloc, paths)?;
    let circles = Circles::of(alloc, steps)?;
    let conditions = Conditions::new(order, &simples, &circles, &wildcards);
    conditions.shows(alloc, joined, place)
}

/// What is wrong with the element at a place of a tree, the first that is; `joined` where the documents that it includes and
/// imports are joined to it. All that the document's elements name is looked up anew in each call.
///
/// # Errors
///
/// `AllocError` where memory is refused.
pub fn shows(
    alloc: Global,
    tree: &Tree,
    place: u32,
    joined: bool,
) -> Result<Option<SchemaKind>, AllocError>
    requires there { place < length tree.now }
    ensures { IfOk result (λ k. k ≡ shows_at joined tree.now place) }
{
    let schema = Schema::of(alloc, tree)?;
    let steps = Steps::of(alloc, &schema)?;
    let paths = Paths::of(alloc, &steps)?;
    let order = Order::of(alloc, tree)?;
    first_shown(alloc, &order, &steps, &paths, place, joined)
}
