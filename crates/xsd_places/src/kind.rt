//! What an element of a schema document declares.

ghost use Rattle.std.specs.Prelude.{◌≡◌, codes};
ghost use Rattle.std.specs.Str.{chars};
ghost use Rattle.xsd_places.specs.Kinds.{is_attribute_node, is_element_node, is_global_at, is_kind, is_particle, is_particle_node, is_prohibited, is_required, is_simple_node, is_told, is_type_node, refers};
ghost use Rattle.xsd_nodes.specs.declared.attribute_name.AttributeName.TheVariants as attribute;

use xsd_nodes::{
    AttributeName, Part, holder, is_among_at, is_at, is_global, is_part, is_skipped, is_text,
    text_at,
};
use xsd_tree::Node;

/// A kind of component.
#[derive(Clone, Copy, Debug, PartialEq, Eq)]
pub enum Kind {
    /// Elements, global and local.
    Element,
    /// Attributes, global and local.
    Attribute,
    /// Types: also the restriction of a `simpleContent`, which is a simple type of its own.
    Type,
    /// Simple types alone: also the restriction of a `simpleContent`.
    Simple,
    /// Groups of elements.
    Group,
    /// Groups of attributes.
    AttributeGroup,
    /// Particles: also what stands directly within a group.
    Particle,
}

/// Whether the attribute of the element at a place stands, and its text is this word.
pub fn is_told(nodes: &[Node], name: AttributeName, word: &str, place: u32) -> bool
    ensures { result ≡ is_told nodes.now name (chars word.now) place }
{
    match text_at(nodes, name, place) {
        Some(text) => is_text(text, word),
        None => false,
    }
}

/// Whether the element at a place refers to a global component in place of declaring one.
pub fn refers(nodes: &[Node], place: u32) -> bool
    ensures { result ≡ refers nodes.now place }
{
    !is_global(nodes, place) && text_at(nodes, AttributeName::Ref, place).is_some()
}

/// Whether the use is told as `prohibited`.
fn is_told_prohibited(nodes: &[Node], place: u32) -> bool
    ensures { result ≡ is_told nodes.now attribute.Use (codes "prohibited") place }
{
    is_told(nodes, AttributeName::Use, "prohibited", place)
}

/// Whether the element at a place says that an attribute may not stand.
pub fn is_prohibited(nodes: &[Node], place: u32) -> bool
    ensures { result ≡ is_prohibited nodes.now place }
{
    !is_global(nodes, place) && is_told_prohibited(nodes, place)
}

/// Whether the element at a place says that an attribute has to stand.
pub fn is_required(nodes: &[Node], place: u32) -> bool
    ensures { result ≡ is_required nodes.now place }
{
    is_told(nodes, AttributeName::Use, "required", place)
}

/// Whether the element at a place stands a number of times within a type or group (XML Schema 1.0 Part 1, section 3.9).
pub fn is_particle(nodes: &[Node], place: u32) -> bool
    ensures { result ≡ is_particle nodes.now place }
{
    let models = [Part::Sequence, Part::Choice, Part::All];
    (is_among_at(nodes, &[Part::Element, Part::Group], place) && !is_global(nodes, place))
        || is_at(nodes, Part::Any, place)
        || (is_among_at(nodes, &models, place) && !is_part(Part::Group, holder(nodes, place)))
}

/// Whether it is a particle, or the sequence or choice of a group.
fn is_particle_node(nodes: &[Node], place: u32) -> bool
    ensures { result ≡ is_particle_node nodes.now place }
{
    is_particle(nodes, place)
        || is_among_at(nodes, &[Part::Sequence, Part::Choice, Part::All], place)
}

/// Whether it declares an element.
fn is_element_node(nodes: &[Node], place: u32) -> bool
    ensures { result ≡ is_element_node nodes.now place }
{
    is_at(nodes, Part::Element, place) && !refers(nodes, place)
}

/// Whether it declares an attribute, and not that none may stand.
fn is_attribute_node(nodes: &[Node], place: u32) -> bool
    ensures { result ≡ is_attribute_node nodes.now place }
{
    is_at(nodes, Part::Attribute, place) && !refers(nodes, place) && !is_prohibited(nodes, place)
}

/// Whether it is a simple type.
fn is_simple_node(nodes: &[Node], place: u32) -> bool
    ensures { result ≡ is_simple_node nodes.now place }
{
    is_at(nodes, Part::SimpleType, place)
        || (is_at(nodes, Part::Restriction, place)
            && is_part(Part::SimpleContent, holder(nodes, place)))
}

/// Whether it is a type.
fn is_type_node(nodes: &[Node], place: u32) -> bool
    ensures { result ≡ is_type_node nodes.now place }
{
    is_simple_node(nodes, place) || is_at(nodes, Part::ComplexType, place)
}

/// Whether it is this and stands directly within the schema.
fn is_global_at(nodes: &[Node], part: Part, place: u32) -> bool
    ensures { result ≡ is_global_at nodes.now part place }
{
    is_at(nodes, part, place) && is_global(nodes, place)
}

/// Whether the element at a place declares a component of a kind. What an annotation holds declares nothing.
pub fn is_kind(kind: Kind, nodes: &[Node], place: u32) -> bool
    ensures { result ≡ is_kind kind nodes.now place }
{
    if is_skipped(nodes, place) {
        return false;
    }
    match kind {
        Kind::Element => is_element_node(nodes, place),
        Kind::Attribute => is_attribute_node(nodes, place),
        Kind::Type => is_type_node(nodes, place),
        Kind::Simple => is_simple_node(nodes, place),
        Kind::Group => is_global_at(nodes, Part::Group, place),
        Kind::AttributeGroup => is_global_at(nodes, Part::AttributeGroup, place),
        Kind::Particle => is_particle_node(nodes, place),
    }
}
