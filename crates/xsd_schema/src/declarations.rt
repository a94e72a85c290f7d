//! What a schema document declares (XML Schema 1.0 Part 1, section 2.2), or what is wrong with it first.
//!
//! Elements, attributes, groups and particles stand in the document's order, and types so behind the built-in ones, each with
//! the places of what it names:
//!
//! ```text
//!   0  schema
//!   1    element  name="a"  type="t"      element 0, of type 46
//!   2    complexType  name="t"            type 46, of xs:anyType, its content particle 0
//!   3      sequence                       particle 0, of particle 1
//!   4        element  name="b"            particle 1, of element 1, of xs:anyType
//! ```

ghost use Rattle.std.specs.Prelude.{◌≡◌, ◌≤◌, ◌^◌, All, IfOk, length, map};
ghost use Rattle.exi_names.specs.Events.{happens};
ghost use Rattle.xsd_model.specs.Faults.{Gives};
ghost use Rattle.xsd_model.specs.Parts.{AreForms, representations};
ghost use Rattle.xsd_schema.specs.Documents.{parts_of};
ghost use Rattle.xsd_schema.specs.Readings.{as_declared, as_found, components_of, found_with};
ghost use Rattle.xsd_schema.specs.Types.{HasFormIn};

use crate::faults::fault_of;
use crate::types::all_types;
use exi_gram::Items;
use exi_names::{Event, Txt};
use std::alloc::{AllocError, Global};
use xsd_components::Schema;
use xsd_declared::{attribute_groups_of, attributes_of, elements_of};
use xsd_model::{
    AttributeDecl, AttributeGroup, ElementDecl, Form, Group, Particle, SchemaStop, TypeDef,
};
use xsd_nodes::target;
use xsd_particles::{groups_of, particles_of};
use xsd_paths::Paths;
use xsd_places::Places;
use xsd_simple::Simples;
use xsd_steps::Steps;
use xsd_tree::{Tree, tree};
use xsd_type_wildcards::{TypeWildcards, Wilds};
use xsd_values::Values;

/// What a schema document declares, each part by the places of what it names.
#[derive(Debug, Drop)]
pub struct Declarations {
    /// The target namespace, empty where there is none.
    pub target: Txt,
    /// The elements, in the document's order.
    pub elements: Items<ElementDecl>,
    /// The attributes, in the document's order.
    pub attributes: Items<AttributeDecl>,
    /// The types: the built-in ones by name, and then the document's in its order.
    pub types: Items<TypeDef>,
    /// The groups of elements, in the document's order.
    pub groups: Items<Group>,
    /// The groups of attributes, in the document's order.
    pub attribute_groups: Items<AttributeGroup>,
    /// The particles, in the document's order: those within one behind it.
    pub particles: Items<Particle>,
    /// How values of simple types are represented: a list's items by a form before it.
    pub forms: Items<Form>,
}

/// What a schema declares, without how values of simple types are represented.
#[derive(Debug, Drop)]
struct Found {
    target: Txt,
    elements: Items<ElementDecl>,
    attributes: Items<AttributeDecl>,
    types: Items<TypeDef>,
    groups: Items<Group>,
    attribute_groups: Items<AttributeGroup>,
    particles: Items<Particle>,
}

/// What the schema declares whose types these are.
fn found_with(
    alloc: Global,
    places: &Places<'_>,
    types: Items<TypeDef>,
) -> Result<Found, AllocError>
    ensures { IfOk result (λ f. f ≡ found_with places.now types) }
{
    Ok(Found {
        target: Txt::of(alloc, target(places.schema().document().nodes(), 0))?,
        elements: elements_of(alloc, places)?,
        attributes: attributes_of(alloc, places)?,
        types,
        groups: groups_of(alloc, places)?,
        attribute_groups: attribute_groups_of(alloc, places)?,
        particles: particles_of(alloc, places)?,
    })
}

/// What the schema declares whose simple types these are, where no element shows a fault.
#[tactic(auto, unfolding(crate::specs::Documents::parts_of))]
fn found_in(
    alloc: Global,
    tree: &Tree,
    simples: &Simples<'_>,
    joined: bool,
) -> Result<Found, SchemaStop>
    requires tree { tree.now ≡ simples.now.nodes }
    ensures parts { Gives (as_found simples.now.forms) result (parts_of joined simples.now.nodes) }
    ensures types { IfOk result (λ f. All (HasFormIn (length simples.now.forms)) f.types) }
{
    let paths = simples.paths();
    let wildcards = TypeWildcards::of(alloc, paths)?;
    if let Some(fault) = fault_of(alloc, tree, simples, &wildcards, joined)? {
        return Err(SchemaStop::Fault(fault));
    }
    let wilds = Wilds::of(alloc, &wildcards)?;
    let schema = simples.schema();
    let places = Places::of(alloc, schema)?;
    let types = all_types(alloc, &places, simples, &wilds)?;
    let found = found_with(alloc, &places, types)?;
    Ok(found)
}

/// What is found, with how values of simple types are represented.
fn with_forms(found: Found, forms: Items<Form>) -> Declarations
    ensures parts { as_declared result ≡ as_found (representations forms) found }
    ensures forms { result.forms ≡ forms }
    ensures types { result.types ≡ found.types }
{
    Declarations {
        target: found.target,
        elements: found.elements,
        attributes: found.attributes,
        types: found.types,
        groups: found.groups,
        attribute_groups: found.attribute_groups,
        particles: found.particles,
        forms,
    }
}

/// What the document of a tree declares; `joined` where those that it includes and imports are joined to it.
///
/// # Errors
///
/// The first fault that an element shows. `Memory` where memory is refused.
pub fn declarations_in(alloc: Global, tree: &Tree, joined: bool) -> Result<Declarations, SchemaStop>
    ensures parts { Gives as_declared result (parts_of joined tree.now) }
    ensures forms { IfOk result (λ d. AreForms 0 d.forms) }
    ensures types { IfOk result (λ d. All (HasFormIn (length (representations d.forms))) d.types) }
{
    let schema = Schema::of(alloc, tree)?;
    let steps = Steps::of(alloc, &schema)?;
    let paths = Paths::of(alloc, &steps)?;
    let values = Values::of(alloc, &paths)?;
    let simples = Simples::of(alloc, &values)?;
    match found_in(alloc, tree, &simples, joined) {
        Ok(found) => Ok(with_forms(found, simples.into_forms())),
        Err(stop) => Err(stop),
    }
}

/// What the schema document of these events declares.
///
/// # Errors
///
/// The first fault: `NotSchema` where the events are none of a schema document, or what an element shows. `Memory` where memory
/// is refused.
pub fn declarations_of(alloc: Global, events: &[Event]) -> Result<Declarations, SchemaStop>
    requires few { length events.now ≤ 2 ^ 28 }
    ensures parts { Gives as_declared result (components_of (map happens events.now)) }
    ensures forms { IfOk result (λ d. AreForms 0 d.forms) }
    ensures types { IfOk result (λ d. All (HasFormIn (length (representations d.forms))) d.types) }
{
    match tree(alloc, events) {
        Ok(tree) => declarations_in(alloc, &tree, false),
        Err(stop) => Err(stop),
    }
}
