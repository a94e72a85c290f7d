//! The content of groups and of complex types.

ghost use Rattle.std.specs.Prelude.{◌≡◌, IfOk};
ghost use Rattle.xsd_contents.specs.Contents.{is_yes, model_groups};
ghost use Rattle.xsd_nodes.specs.Nodes.{text_at};
ghost use Rattle.xsd_nodes.specs.declared.attribute_name.AttributeName.TheVariants as attribute;
ghost use Rattle.xsd_particles.specs.Particles.{content_by, content_in, empty_content, group_decl, model_at, own_content};

use std::alloc::{AllocError, Global};
use xsd_components::TypeAt;
use xsd_contents::{is_empty, is_mixed, is_yes};
use xsd_declared::event_at;
use xsd_model::{Content, Group};
use xsd_nodes::{AttributeName, Part, text_at};
use xsd_places::{Kind, Places};
use xsd_tree::Node;

/// The particles that a type, a derivation or a group can hold.
fn model_groups() -> &'static [Part]
    ensures { result.now ≡ model_groups }
{
    &[Part::Group, Part::All, Part::Choice, Part::Sequence]
}

/// The place of the particle of the type, derivation or group at a place, where it has one.
pub fn model_at(places: &Places<'_>, place: u32) -> Option<u32>
    ensures { result ≡ model_at places.now place }
{
    match places.schema().document().child(model_groups(), place) {
        Some(place) => Some(places.place(Kind::Particle, place)),
        None => None,
    }
}

/// The group of elements at a place (XML Schema 1.0 Part 1, section 3.7.2).
pub fn group_decl(places: &Places<'_>, place: u32) -> Group
    ensures { result ≡ group_decl places.now place }
{
    Group {
        particle: model_at(places, place),
        event: event_at(places.schema().document().nodes(), place),
    }
}

/// Whether `mixed` is true for the complex type at a place.
fn is_mixed_itself(alloc: Global, nodes: &[Node], place: u32) -> Result<bool, AllocError>
    ensures { IfOk result (λ b. b ≡ is_yes (text_at nodes.now attribute.Mixed place)) }
{
    match text_at(nodes, AttributeName::Mixed, place) {
        Some(text) => is_yes(alloc, text),
        None => Ok(false),
    }
}

/// The content of a type within which nothing stands: text may stand in it once, however often its model may (XML Schema 1.0
/// Part 1, section 3.4.2).
fn empty_content(mixed: bool) -> Content
    ensures { result ≡ empty_content mixed }
{
    if mixed {
        Content::Parts {
            particle: None,
            mixed: true,
        }
    } else {
        Content::Empty
    }
}

/// The content that stands within the type or derivation at a place.
fn own_content(
    alloc: Global,
    places: &Places<'_>,
    place: u32,
    mixed: bool,
) -> Result<Content, AllocError>
    ensures { IfOk result (λ c. c ≡ own_content places.now place mixed) }
{
    if is_empty(alloc, places.schema(), place)? {
        return Ok(empty_content(mixed));
    }
    Ok(Content::Parts {
        particle: model_at(places, place),
        mixed,
    })
}

/// The content of the complex type at a place that has no value, which is derived by the element at another.
fn content_in(
    alloc: Global,
    places: &Places<'_>,
    place: u32,
    derivation: Option<u32>,
) -> Result<Content, AllocError>
    ensures { IfOk result (λ c. c ≡ content_in places.now place derivation) }
{
    match derivation {
        Some(derivation) => {
            let mixed = is_mixed(alloc, places.schema(), derivation)?;
            own_content(alloc, places, derivation, mixed)
        }
        None => {
            let nodes = places.schema().document().nodes();
            let mixed = is_mixed_itself(alloc, nodes, place)?;
            own_content(alloc, places, place, mixed)
        }
    }
}

/// The content of the complex type at a place, of a value of this type where it has one.
pub(crate) fn content_by(
    alloc: Global,
    places: &Places<'_>,
    place: u32,
    value: Option<TypeAt>,
) -> Result<Content, AllocError>
    ensures { IfOk result (λ c. c ≡ content_by places.now place value) }
{
    match value {
        Some(value) => Ok(Content::Simple(places.place_of_type(value))),
        None => content_in(alloc, places, place, places.schema().derivation(place)),
    }
}
