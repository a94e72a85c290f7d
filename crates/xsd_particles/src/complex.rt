//! The complex types that a schema declares.

ghost use Rattle.std.specs.Prelude.{◌≡◌, IfOk};
ghost use Rattle.xsd_particles.specs.Particles.{attributes_in, complex_base, complex_def, complex_of, derivation_by, global_name};

use crate::content::content_by;
use exi_names::QName;
use std::alloc::{AllocError, Global};
use xsd_builtins::ANY_TYPE;
use xsd_components::{Schema, TypeAt};
use xsd_declared::{event_at, uses_at};
use xsd_model::{Complex, Derivation, TypeBody, TypeDef, Wild};
use xsd_names::own_name;
use xsd_nodes::{Part, is_at, is_global};
use xsd_places::Places;
use xsd_tree::Node;

/// The place of the element that holds the attributes of the complex type at a place: its restriction or extension, where it has
/// one.
pub fn attributes_in(schema: &Schema<'_>, place: u32) -> u32
    ensures { result ≡ attributes_in schema.now place }
{
    match schema.derivation(place) {
        Some(derivation) => derivation,
        None => place,
    }
}

/// How the complex type at a place is derived.
fn derivation_by(schema: &Schema<'_>, place: u32) -> Derivation
    ensures { result ≡ derivation_by schema.now place }
{
    let derivation = attributes_in(schema, place);
    if is_at(schema.document().nodes(), Part::Extension, derivation) {
        Derivation::Extension
    } else {
        Derivation::Restriction
    }
}

/// The name of a type, where it stands directly within the schema.
fn global_name(alloc: Global, nodes: &[Node], place: u32) -> Result<Option<QName>, AllocError>
    ensures { IfOk result (λ n. n ≡ global_name nodes.now place) }
{
    if is_global(nodes, place) {
        own_name(alloc, nodes, place)
    } else {
        Ok(None)
    }
}

/// The type that the complex type at a place is derived from: where it names none, `xs:anyType` (XML Schema 1.0 Part 1, section
/// 3.4.2).
///
/// # Errors
///
/// `AllocError` where memory is refused.
pub fn complex_base(alloc: Global, schema: &Schema<'_>, place: u32) -> Result<TypeAt, AllocError>
    ensures { IfOk result (λ t. t ≡ complex_base schema.now place) }
{
    match schema.derivation(place) {
        Some(derivation) => match schema.base(alloc, derivation)? {
            Some(base) => Ok(base),
            None => Ok(TypeAt::Built(ANY_TYPE)),
        },
        None => Ok(TypeAt::Built(ANY_TYPE)),
    }
}

/// The complex type at a place, with this wildcard for attributes, and of a value of this type where its content is one.
fn complex_of(
    alloc: Global,
    places: &Places<'_>,
    wild: Option<Wild>,
    value: Option<TypeAt>,
    place: u32,
) -> Result<Complex, AllocError>
    ensures { IfOk result (λ c. c ≡ complex_of places.now wild value place) }
{
    let schema = places.schema();
    let derivation = derivation_by(schema, place);
    let uses = uses_at(alloc, places, attributes_in(schema, place))?;
    let content = content_by(alloc, places, place, value)?;
    Ok(Complex {
        derivation,
        uses,
        wild,
        content,
    })
}

/// The complex type at a place, with what its wildcards for attributes come to, and of a value of this type where its content is
/// one (XML Schema 1.0 Part 1, section 3.4.2).
///
/// # Errors
///
/// `AllocError` where memory is refused.
pub fn complex_def(
    alloc: Global,
    places: &Places<'_>,
    wild: Option<Wild>,
    value: Option<TypeAt>,
    place: u32,
) -> Result<TypeDef, AllocError>
    ensures { IfOk result (λ t. t ≡ complex_def places.now wild value place) }
{
    let nodes = places.schema().document().nodes();
    let base = complex_base(alloc, places.schema(), place)?;
    let complex = complex_of(alloc, places, wild, value, place)?;
    Ok(TypeDef {
        name: global_name(alloc, nodes, place)?,
        base: Some(places.place_of_type(base)),
        body: TypeBody::Complex(complex),
        event: event_at(nodes, place),
    })
}
