//! The types that a schema document declares.

ghost use Rattle.std.specs.Prelude.{◌≡◌, ◌++◌, All, IfOk, OnOk, length, map, option_map};
ghost use Rattle.xsd_declared.specs.Lists.{one_of};
ghost use Rattle.xsd_particles.specs.Particles.{wild_of};
ghost use Rattle.xsd_schema.specs.Documents.{all_types, complex_type, declared_type, value_told, wild_told};
ghost use Rattle.xsd_places.specs.Kinds.{is_kind};
ghost use Rattle.xsd_places.specs.declared.kind.Kind.TheVariants as kind;
ghost use Rattle.xsd_schema.specs.Seen.{type_seen};
ghost use Rattle.xsd_schema.specs.Types.{HasFormIn};

use crate::built_in::built_in_types;
use crate::simple::{simple_base, simple_type};
use exi_gram::Items;
use std::alloc::{AllocError, Global};
use xsd_components::TypeAt;
use xsd_model::{TypeDef, Wild};
use xsd_nodes::{Part, is_at};
use xsd_particles::{complex_def, wild_of};
use xsd_paths::Paths;
use xsd_places::{Kind, Places, is_kind};
use xsd_simple::Simples;
use xsd_type_wildcards::Wilds;
use xsd_values::Values;
use xsd_wildcards::Allowed;

/// What the wildcard for attributes of the complex type at a place allows, where its paths end.
fn wild_told(
    alloc: Global,
    paths: &Paths<'_>,
    wilds: &Wilds<'_>,
    place: u32,
) -> Result<Option<Allowed>, AllocError>
    requires same { paths.now ≡ wilds.now }
    ensures { IfOk result (λ a. a ≡ wild_told wilds.now place) }
{
    if paths.is_whole(place) && wilds.has_all_groups(place) {
        wilds.type_wild(alloc, place)
    } else {
        Ok(None)
    }
}

/// The wildcard for attributes of the complex type at a place, as an EXI grammar tells it apart.
fn wild_at(
    alloc: Global,
    paths: &Paths<'_>,
    wilds: &Wilds<'_>,
    place: u32,
) -> Result<Option<Wild>, AllocError>
    requires same { paths.now ≡ wilds.now }
    ensures { IfOk result (λ w. w ≡ option_map wild_of (wild_told wilds.now place)) }
{
    match wild_told(alloc, paths, wilds, place)? {
        Some(allowed) => Ok(Some(wild_of(allowed))),
        None => Ok(None),
    }
}

/// The type of the value of the complex type at a place, where its content is one.
fn value_told(values: &Values<'_>, place: u32) -> Option<TypeAt>
    ensures { result ≡ value_told values.now place }
{
    if values.paths().is_whole(place) {
        values.value_type(TypeAt::Node(place))
    } else {
        None
    }
}

/// The complex type that is declared at a place.
fn complex_type(
    alloc: Global,
    places: &Places<'_>,
    simples: &Simples<'_>,
    wilds: &Wilds<'_>,
    place: u32,
) -> Result<TypeDef, AllocError>
    requires places { places.now ≡ simples.now.nodes }
    requires wilds { wilds.now ≡ simples.now.nodes }
    ensures of { IfOk result (λ t. type_seen simples.now.forms t ≡ complex_type simples.now.nodes place) }
    ensures form { IfOk result (HasFormIn (length simples.now.forms)) }
{
    let wild = wild_at(alloc, simples.paths(), wilds, place)?;
    let value = value_told(simples.values(), place);
    let found = complex_def(alloc, places, wild, value, place)?;
    Ok(found)
}

/// The type that is declared at a place.
fn declared_type(
    alloc: Global,
    places: &Places<'_>,
    simples: &Simples<'_>,
    wilds: &Wilds<'_>,
    place: u32,
) -> Result<TypeDef, AllocError>
    requires places { places.now ≡ simples.now.nodes }
    requires wilds { wilds.now ≡ simples.now.nodes }
    ensures of { IfOk result (λ t. type_seen simples.now.forms t ≡ declared_type simples.now.nodes place) }
    ensures form { IfOk result (HasFormIn (length simples.now.forms)) }
{
    if is_at(
        simples.schema().document().nodes(),
        Part::ComplexType,
        place,
    ) {
        complex_type(alloc, places, simples, wilds, place)
    } else {
        let base = places.place_of_type(simple_base(alloc, simples, place)?);
        simple_type(alloc, simples, place, base)
    }
}

/// Adds the type at a place, where one is declared.
fn push_type(
    alloc: Global,
    types: &mut Items<TypeDef>,
    places: &Places<'_>,
    simples: &Simples<'_>,
    wilds: &Wilds<'_>,
    place: u32,
) -> Result<(), AllocError>
    requires places { places.now ≡ simples.now.nodes }
    requires wilds { wilds.now ≡ simples.now.nodes }
    requires forms { All (HasFormIn (length simples.now.forms)) types.old }
    ensures types { OnOk result (map (type_seen simples.now.forms) types.new
        ≡ map (type_seen simples.now.forms) types.old ++ one_of (is_kind kind.Type simples.now.nodes place) (declared_type simples.now.nodes place)) }
    ensures forms { OnOk result (All (HasFormIn (length simples.now.forms)) types.new) }
{
    if is_kind(Kind::Type, simples.schema().document().nodes(), place) {
        types.push(declared_type(alloc, places, simples, wilds, place)?)?;
    }
    Ok(())
}

/// The built-in types, and then those that a schema declares, in the document's order.
pub(crate) fn all_types(
    alloc: Global,
    places: &Places<'_>,
    simples: &Simples<'_>,
    wilds: &Wilds<'_>,
) -> Result<Items<TypeDef>, AllocError>
    requires places { places.now ≡ simples.now.nodes }
    requires wilds { wilds.now ≡ simples.now.nodes }
    ensures types { IfOk result (λ l. map (type_seen simples.now.forms) l ≡ all_types simples.now.nodes) }
    ensures forms { IfOk result (All (HasFormIn (length simples.now.forms))) }
{
    let mut types = built_in_types(alloc, simples)?;
    for place in 0..simples.schema().document().nodes().len() {
        push_type(alloc, &mut types, places, simples, wilds, place as u32)?;
    }
    Ok(types)
}
