//! A simple type of a document.

ghost use Rattle.std.specs.Prelude.{◌≡◌, true, IfOk, length};
ghost use Rattle.xsd_paths.specs.Paths.{is_whole_type};
ghost use Rattle.xsd_schema.specs.Seen.{body_seen, type_seen};
ghost use Rattle.xsd_schema.specs.Types.{HasForm, HasFormIn, global_name, simple_base, simple_body, simple_on, whole_type};

use crate::facets::type_restricted;
use exi_names::QName;
use std::alloc::{AllocError, Global};
use xsd_builtins::ANY_SIMPLE;
use xsd_components::TypeAt;
use xsd_declared::event_at;
use xsd_model::{TypeBody, TypeDef};
use xsd_names::own_name;
use xsd_nodes::is_global;
use xsd_simple::Simples;
use xsd_tree::Node;

/// The name of what stands directly within the schema; nothing else has one.
fn global_name(alloc: Global, nodes: &[Node], place: u32) -> Result<Option<QName>, AllocError>
    ensures { IfOk result (λ n. n ≡ global_name nodes.now place) }
{
    if is_global(nodes, place) {
        own_name(alloc, nodes, place)
    } else {
        Ok(None)
    }
}

/// The type of the element at a place; `anySimpleType` where a path from it does not end.
fn whole_type(simples: &Simples<'_>, place: u32) -> TypeAt
    ensures of { result ≡ whole_type simples.now.nodes place }
    ensures whole { is_whole_type simples.now.nodes result ≡ true }
{
    if simples.paths().is_whole(place) {
        TypeAt::Node(place)
    } else {
        TypeAt::Built(ANY_SIMPLE)
    }
}

/// How the values of a simple type are represented, and whether it is a union.
fn simple_body(simples: &Simples<'_>, of: TypeAt) -> TypeBody
    requires whole { is_whole_type simples.now.nodes of ≡ true }
    ensures seen { body_seen simples.now.forms result ≡ simple_body simples.now.nodes of }
    ensures form { HasForm (length simples.now.forms) result }
{
    TypeBody::Simple {
        form: simples.form(of),
        union: simples.is_united(of),
    }
}

/// The type that the simple type at a place restricts; `anySimpleType` for lists and unions, and where a path does not end.
///
/// # Errors
///
/// `AllocError` where memory is refused.
pub fn simple_base(alloc: Global, simples: &Simples<'_>, place: u32) -> Result<TypeAt, AllocError>
    ensures { IfOk result (λ t. t ≡ simple_base simples.now.nodes place) }
{
    let derivation = simples.schema().derivation(place);
    match type_restricted(alloc, simples, derivation)? {
        Some(of) => Ok(of),
        None => Ok(TypeAt::Built(ANY_SIMPLE)),
    }
}

/// The simple type of the element at a place, derived from the type at the place `base` among the types.
///
/// # Errors
///
/// `AllocError` where memory is refused.
pub fn simple_type(
    alloc: Global,
    simples: &Simples<'_>,
    place: u32,
    base: u32,
) -> Result<TypeDef, AllocError>
    ensures of { IfOk result (λ t. type_seen simples.now.forms t ≡ simple_on base simples.now.nodes place) }
    ensures form { IfOk result (HasFormIn (length simples.now.forms)) }
{
    let nodes = simples.schema().document().nodes();
    Ok(TypeDef {
        name: global_name(alloc, nodes, place)?,
        base: Some(base),
        body: simple_body(simples, whole_type(simples, place)),
        event: event_at(nodes, place),
    })
}
