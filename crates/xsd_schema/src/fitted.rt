//! The components of a schema document.

ghost use Rattle.std.specs.Prelude.{◌≡◌, ◌≤◌, ◌^◌, length, map};
ghost use Rattle.exi_names.specs.Events.{happens};
ghost use Rattle.xsd_schema.specs.Views.{as_told};
ghost use Rattle.xsd_model.specs.Faults.{Gives};
ghost use Rattle.xsd_model.specs.Parts.{AreForms, IsSchemaParts};
ghost use Rattle.xsd_schema.specs.Documents.{parts_of};
ghost use Rattle.xsd_schema.specs.Readings.{components_of};
ghost use Rattle.xsd_schema.specs.Parts.{parts_in};

use crate::declarations::{Declarations, declarations_in};
use exi_names::Event;
use std::alloc::Global;
use xsd_model::{Components, SchemaStop};
use xsd_tree::{Tree, tree};

/// The components of declarations that fit together.
fn fitted(declared: Declarations) -> Components
    requires forms { AreForms 0 declared.forms }
    requires parts { IsSchemaParts (parts_in declared) }
    ensures { result ≡ parts_in declared }
{
    Components::of(
        declared.target,
        declared.elements,
        declared.attributes,
        declared.types,
        declared.groups,
        declared.attribute_groups,
        declared.particles,
        declared.forms,
    )
}

/// The components of the document of a tree; `joined` where those that it includes and imports are joined to it.
///
/// # Errors
///
/// The first fault that an element shows. `Memory` where memory is refused.
pub fn parts_of(alloc: Global, tree: &Tree, joined: bool) -> Result<Components, SchemaStop>
    ensures { Gives as_told result (parts_of joined tree.now) }
{
    tree.nodes();
    match declarations_in(alloc, tree, joined) {
        Ok(declared) => Ok(fitted(declared)),
        Err(stop) => Err(stop),
    }
}

/// The components of the schema document of these events.
///
/// # Errors
///
/// The first fault: `NotSchema` where the events are none of a schema document, or what an element shows. `Memory` where memory
/// is refused.
pub fn components(alloc: Global, events: &[Event]) -> Result<Components, SchemaStop>
    requires few { length events.now ≤ 2 ^ 28 }
    ensures { Gives as_told result (components_of (map happens events.now)) }
{
    match tree(alloc, events) {
        Ok(tree) => parts_of(alloc, &tree, false),
        Err(stop) => Err(stop),
    }
}
