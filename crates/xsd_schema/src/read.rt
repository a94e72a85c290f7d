//! The simple types of a schema document (XML Schema 1.0 Part 1, section 3.14).
//!
//! The 46 built-in types stand first, and then those of the document, in order. A type names its base by its place among them:
//!
//! ```text
//!  29  xs:int
//!  46  mark       <simpleType name="mark"><restriction base="xs:int"/></simpleType>      base 29
//!  47  best       <simpleType name="best"><restriction base="mark"/></simpleType>        base 46
//! ```

ghost use Rattle.std.specs.Prelude.{◌≡◌, ◌++◌, IfOk, OnOk, map};
ghost use Rattle.xsd_declared.specs.Lists.{one_of};
ghost use Rattle.xsd_schema.specs.Shown.{first_from, simple_shows};
ghost use Rattle.xsd_model.specs.Faults.{Gives};
ghost use Rattle.xsd_model.specs.Parts.{AreForms};
ghost use Rattle.xsd_places.specs.Kinds.{is_kind};
ghost use Rattle.xsd_places.specs.declared.kind.Kind.TheVariants as kind;
ghost use Rattle.xsd_schema.specs.Reading.{are_seen};
ghost use Rattle.xsd_schema.specs.Seen.{type_seen};
ghost use Rattle.xsd_schema.specs.Types.{simple_at, simple_types, types_of};

use crate::built_in::built_in_types;
use crate::simple::{simple_base, simple_type};
use crate::simple_shown::simple_shows;
use exi_gram::Items;
use std::alloc::{AllocError, Global};
use xsd_circles::Circles;
use xsd_components::Schema;
use xsd_model::{Form, SchemaFault, SchemaStop, TypeDef};
use xsd_paths::Paths;
use xsd_places::{Kind, Places, is_kind};
use xsd_simple::Simples;
use xsd_steps::Steps;
use xsd_tree::Tree;
use xsd_values::Values;

/// The simple types of a schema document.
#[derive(Debug, Drop)]
pub struct SimpleTypes {
    /// The built-in types, and then those of the document, in order.
    pub types: Items<TypeDef>,
    /// How their values are represented.
    pub forms: Items<Form>,
}

/// The first element that shows something wrong with a simple type.
fn first_fault(
    alloc: Global,
    simples: &Simples<'_>,
    circles: &Circles<'_>,
) -> Result<Option<SchemaFault>, AllocError>
    requires same { circles.now ≡ simples.now.nodes }
    ensures { IfOk result (λ f. f ≡ first_from (simple_shows simples.now.nodes) 0 simples.now.nodes) }
{
    let nodes = simples.schema().document().nodes();
    for (place, node) in nodes.iter().enumerate() {
        if let Some(kind) = simple_shows(alloc, simples, circles, place as u32)? {
            let event = node.event;
            return Ok(Some(SchemaFault { kind, event }));
        }
    }
    Ok(None)
}

/// The simple type of the element at a place, with its base among the simple types.
fn simple_at(
    alloc: Global,
    simples: &Simples<'_>,
    places: &Places<'_>,
    place: u32,
) -> Result<TypeDef, AllocError>
    requires same { places.now ≡ simples.now.nodes }
    ensures { IfOk result (λ t. type_seen simples.now.forms t ≡ simple_at simples.now.nodes place) }
{
    let base = places.place_of_simple(simple_base(alloc, simples, place)?);
    simple_type(alloc, simples, place, base)
}

/// Adds the simple type of the element at a place, where it is one.
fn push_simple_type(
    alloc: Global,
    types: &mut Items<TypeDef>,
    simples: &Simples<'_>,
    places: &Places<'_>,
    place: u32,
) -> Result<(), AllocError>
    requires same { places.now ≡ simples.now.nodes }
    ensures { OnOk result (map (type_seen simples.now.forms) types.new ≡ map (type_seen simples.now.forms) types.old ++ one_of (is_kind kind.Simple simples.now.nodes place) (simple_at simples.now.nodes place)) }
{
    if is_kind(Kind::Simple, simples.schema().document().nodes(), place) {
        types.push(simple_at(alloc, simples, places, place)?)?;
    }
    Ok(())
}

/// The built-in types, and then the simple ones of the document.
fn simple_types(
    alloc: Global,
    simples: &Simples<'_>,
    places: &Places<'_>,
) -> Result<Items<TypeDef>, AllocError>
    requires same { places.now ≡ simples.now.nodes }
    ensures { IfOk result (λ l. map (type_seen simples.now.forms) l ≡ simple_types simples.now.nodes) }
{
    let mut types = built_in_types(alloc, simples)?;
    for place in 0..simples.schema().document().nodes().len() {
        push_simple_type(alloc, &mut types, simples, places, place as u32)?;
    }
    Ok(types)
}

/// The simple types of a document in which no type shows a fault.
fn sound_types(
    alloc: Global,
    schema: &Schema<'_>,
    simples: Simples<'_>,
) -> Result<SimpleTypes, AllocError>
    requires same { schema.now ≡ simples.nodes }
    ensures types { IfOk result (λ s. are_seen s ≡ simple_types schema.now) }
    ensures forms { IfOk result (λ s. AreForms 0 s.forms) }
{
    let places = Places::of(alloc, schema)?;
    let types = simple_types(alloc, &simples, &places)?;
    let forms = simples.into_forms();
    Ok(SimpleTypes { types, forms })
}

/// The simple types of a document, whose groups, types and elements reach one another so.
fn types_by(
    alloc: Global,
    schema: &Schema<'_>,
    steps: &Steps<'_>,
    paths: &Paths<'_>,
) -> Result<SimpleTypes, SchemaStop>
    requires steps { steps.now ≡ schema.now }
    requires paths { paths.now ≡ schema.now }
    ensures types { Gives are_seen result (types_of schema.now) }
    ensures forms { IfOk result (λ s. AreForms 0 s.forms) }
{
    let circles = Circles::of(alloc, steps)?;
    let values = Values::of(alloc, paths)?;
    let simples = Simples::of(alloc, &values)?;
    if let Some(fault) = first_fault(alloc, &simples, &circles)? {
        return Err(SchemaStop::Fault(fault));
    }
    let types = sound_types(alloc, schema, simples)?;
    Ok(types)
}

/// The simple types of a schema document, the built-in ones first.
///
/// # Errors
///
/// The first fault that a simple type shows: `BadPart`, `Unresolved`, `Circular`, `TwiceDeclared`, `Unsupported` or
/// `PatternRefused`. `Memory` where memory is refused.
pub fn types(alloc: Global, tree: &Tree) -> Result<SimpleTypes, SchemaStop>
    ensures types { Gives are_seen result (types_of tree.now) }
    ensures forms { IfOk result (λ s. AreForms 0 s.forms) }
{
    let schema = Schema::of(alloc, tree)?;
    let steps = Steps::of(alloc, &schema)?;
    let paths = Paths::of(alloc, &steps)?;
    types_by(alloc, &schema, &steps, &paths)
}
