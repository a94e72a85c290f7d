//! What an element is, what it says, and what stands around it.

ghost use Rattle.std.specs.Prelude.{◌≡◌, ◌&&◌, [], option_copied};
ghost use Rattle.std.specs.Str.{bytes_eq, chars};
ghost use Rattle.xsd_nodes.specs.AttributeNames.{attribute_word};
ghost use Rattle.xsd_nodes.specs.Nodes.{holder, is_among_at, is_at, is_global, is_root, is_skipped, parent_at, parent_of, part_above, part_at, part_of, root, second_holder, target, text_at, text_in};
ghost use Rattle.xsd_tree.specs.Trees.{xsd};

use crate::attribute_name::AttributeName;
use crate::part::{Part, is_among, is_part, part_named};
use crate::text::is_text;
use exi_names::{QName, Txt};
use xsd_tree::Node;

/// The namespace of XML Schema.
const XSD: &str = "http://www.w3.org/2001/XMLSchema";

/// Whether the name is of XML Schema.
fn is_of_xsd(name: &QName) -> bool
    ensures { result ≡ bytes_eq name.now.uri xsd }
{
    is_text(&name.uri, XSD)
}

/// What an element is.
pub fn part_of(node: &Node) -> Part
    ensures { result ≡ part_of node.now }
{
    if is_of_xsd(&node.name) {
        part_named(&node.name.local)
    } else {
        Part::Other
    }
}

/// What the element at a place is.
pub fn part_at(nodes: &[Node], place: u32) -> Part
    ensures { result ≡ part_at nodes.now place }
{
    match nodes.get(place as usize) {
        Some(node) => part_of(node),
        None => Part::Other,
    }
}

/// The place of the element that holds the one at a place.
pub fn parent_at(nodes: &[Node], place: u32) -> Option<u32>
    ensures { result ≡ parent_at nodes.now place }
{
    match nodes.get(place as usize) {
        Some(node) => node.parent,
        None => None,
    }
}

/// Whether the name is this one, without a namespace.
fn is_named(name: &QName, wanted: AttributeName) -> bool
    ensures { result ≡ (bytes_eq name.now.uri [] && bytes_eq name.now.local (attribute_word wanted)) }
{
    is_text(&name.uri, "") && is_text(&name.local, wanted.word())
}

/// The text of the first attribute of this name, where one of these has it.
fn text_in<'a>(attributes: &'a [(QName, Txt)], name: AttributeName) -> Option<&'a Txt>
    ensures { option_copied result ≡ text_in (attribute_word name) attributes.now }
{
    for attribute in attributes {
        if is_named(&attribute.0, name) {
            return Some(&attribute.1);
        }
    }
    None
}

/// The text of an attribute of the element at a place, where it has that attribute.
pub fn text_at<'a>(nodes: &'a [Node], name: AttributeName, place: u32) -> Option<&'a Txt>
    ensures { option_copied result ≡ text_at nodes.now name place }
{
    match nodes.get(place as usize) {
        Some(node) => text_in(node.attributes.as_slice(), name),
        None => None,
    }
}

/// Whether the element at a place is this.
pub fn is_at(nodes: &[Node], part: Part, place: u32) -> bool
    ensures { result ≡ is_at nodes.now part place }
{
    is_part(part, part_at(nodes, place))
}

/// Whether the element at a place is one of these.
pub fn is_among_at(nodes: &[Node], parts: &[Part], place: u32) -> bool
    ensures { result ≡ is_among_at nodes.now parts.now place }
{
    is_among(parts, part_at(nodes, place))
}

/// What the element at a place is, where there is such a place.
fn part_above(nodes: &[Node], place: Option<u32>) -> Part
    ensures { result ≡ part_above nodes.now place }
{
    match place {
        Some(place) => part_at(nodes, place),
        None => Part::Other,
    }
}

/// What the element is that holds the one at a place.
pub fn holder(nodes: &[Node], place: u32) -> Part
    ensures { result ≡ holder nodes.now place }
{
    part_above(nodes, parent_at(nodes, place))
}

/// The place of the element that holds the one at a place, where there is such a place.
fn parent_of(nodes: &[Node], place: Option<u32>) -> Option<u32>
    ensures { result ≡ parent_of nodes.now place }
{
    match place {
        Some(place) => parent_at(nodes, place),
        None => None,
    }
}

/// What the element is that holds the one that holds the one at a place.
pub fn second_holder(nodes: &[Node], place: u32) -> Part
    ensures { result ≡ second_holder nodes.now place }
{
    part_above(nodes, parent_of(nodes, parent_at(nodes, place)))
}

/// Whether there is such a place, and nothing holds the element there.
fn is_root(nodes: &[Node], place: Option<u32>) -> bool
    ensures { result ≡ is_root nodes.now place }
{
    match place {
        Some(place) => parent_at(nodes, place).is_none(),
        None => false,
    }
}

/// Whether the element at a place stands directly within a schema.
pub fn is_global(nodes: &[Node], place: u32) -> bool
    ensures { result ≡ is_global nodes.now place }
{
    is_root(nodes, parent_at(nodes, place))
}

/// Whether the element at a place is an annotation or lies in one, so that it has no effect.
pub fn is_skipped(nodes: &[Node], place: u32) -> bool
    ensures { result ≡ is_skipped nodes.now place }
{
    let mut around = Some(place);
    for _ in 0..nodes.len() {
        match around {
            Some(at) => {
                if is_at(nodes, Part::Annotation, at) {
                    return true;
                }
                around = parent_at(nodes, at);
            }
            None => return false,
        }
    }
    false
}

/// The place of the schema that the element at a place lies in.
pub fn root(nodes: &[Node], place: u32) -> u32
    ensures { result ≡ root nodes.now place }
{
    let mut last = place;
    let mut around = Some(place);
    for _ in 0..nodes.len() {
        match around {
            Some(at) => {
                last = at;
                around = parent_at(nodes, at);
            }
            None => return last,
        }
    }
    last
}

/// The target namespace of the schema that the element at a place lies in, empty where it has none.
pub fn target<'a>(nodes: &'a [Node], place: u32) -> &'a str
    ensures { chars result.now ≡ target nodes.now place }
{
    match text_at(nodes, AttributeName::TargetNamespace, root(nodes, place)) {
        Some(text) => text.as_str(),
        None => "",
    }
}
