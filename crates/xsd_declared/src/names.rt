//! The names of what a schema declares.

ghost use Rattle.std.specs.Prelude.{◌≡◌, IfOk, codes};
ghost use Rattle.exi_lexical.specs.Spaces.{trimmed};
ghost use Rattle.xsd_declared.specs.Decls.{declared_name, declared_uri, is_qualified, local_of};
ghost use Rattle.xsd_nodes.specs.Nodes.{text_at};
ghost use Rattle.xsd_nodes.specs.declared.attribute_name.AttributeName.TheVariants as attribute;
ghost use Rattle.xsd_places.specs.Kinds.{is_told};

use exi_names::{QName, Txt};
use std::alloc::{AllocError, Global};
use xsd_names::{letters_of, text_of, trim};
use xsd_nodes::{AttributeName, is_global, root, target, text_at};
use xsd_places::is_told;
use xsd_tree::Node;

/// Whether the attribute is told as `qualified`.
fn is_told_qualified(nodes: &[Node], name: AttributeName, place: u32) -> bool
    ensures { result ≡ is_told nodes.now name (codes "qualified") place }
{
    is_told(nodes, name, "qualified", place)
}

/// Whether the name of what is declared within a type or group is of the target namespace: where it has no attribute `form`, its
/// schema says so.
fn is_qualified(nodes: &[Node], default: AttributeName, place: u32) -> bool
    ensures { result ≡ is_qualified nodes.now default place }
{
    if text_at(nodes, AttributeName::Form, place).is_some() {
        is_told_qualified(nodes, AttributeName::Form, place)
    } else {
        is_told_qualified(nodes, default, root(nodes, place))
    }
}

/// The namespace of what is declared, empty where it has none.
fn declared_uri(
    alloc: Global,
    nodes: &[Node],
    default: AttributeName,
    place: u32,
) -> Result<Txt, AllocError>
    ensures { IfOk result (λ t. t ≡ declared_uri nodes.now default place) }
{
    if is_global(nodes, place) || is_qualified(nodes, default, place) {
        Txt::of(alloc, target(nodes, place))
    } else {
        Ok(Txt::new(alloc))
    }
}

/// The text without the white space at either end.
fn trimmed(alloc: Global, text: &Txt) -> Result<Txt, AllocError>
    ensures { IfOk result (λ t. t ≡ trimmed text.now) }
{
    let letters = letters_of(alloc, text)?;
    text_of(alloc, trim(letters.as_slice()))
}

/// The local name of what is declared.
fn local_name(alloc: Global, nodes: &[Node], place: u32) -> Result<Txt, AllocError>
    ensures { IfOk result (λ t. t ≡ local_of (text_at nodes.now attribute.Name place)) }
{
    match text_at(nodes, AttributeName::Name, place) {
        Some(name) => trimmed(alloc, name),
        None => Ok(Txt::new(alloc)),
    }
}

/// The name of the element or attribute that is declared at a place: of the target namespace where it stands directly within the
/// schema, and else where its attribute `form` says so, or that of the schema which is named here as the default (XML Schema 1.0
/// Part 1, sections 3.2.2 and 3.3.2).
///
/// # Errors
///
/// `AllocError` where memory is refused.
pub fn declared_name(
    alloc: Global,
    nodes: &[Node],
    default: AttributeName,
    place: u32,
) -> Result<QName, AllocError>
    ensures { IfOk result (λ n. n ≡ declared_name nodes.now default place) }
{
    Ok(QName {
        uri: declared_uri(alloc, nodes, default, place)?,
        local: local_name(alloc, nodes, place)?,
        prefix: None,
    })
}
