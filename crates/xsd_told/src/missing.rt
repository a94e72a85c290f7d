//! What is not read, and what an element does not tell.

ghost use Rattle.std.specs.Prelude.{◌≡◌};
ghost use Rattle.xsd_told.specs.Told.{is_named_and_refers, is_nameless, is_unread, lacks_base, refers_to_none, unread};

use xsd_components::Schema;
use xsd_nodes::{AttributeName, Part, holder, is_among_at, is_global, is_part, text_at};

/// The elements that are not read, where the documents that a schema includes and imports are given with it or not.
fn unread(joined: bool) -> &'static [Part]
    ensures { result.now ≡ unread joined }
{
    if joined {
        &[Part::All, Part::Redefine, Part::Notation]
    } else {
        &[
            Part::All,
            Part::Redefine,
            Part::Notation,
            Part::Include,
            Part::Import,
        ]
    }
}

/// Whether an element is one that is not read; `include` and `import` are read where the documents are `joined`.
pub fn is_unread(schema: &Schema<'_>, joined: bool, place: u32) -> bool
    ensures { result ≡ is_unread joined schema.now place }
{
    is_among_at(schema.document().nodes(), unread(joined), place)
}

/// Whether an element or attribute has no name and refers to none.
pub fn is_nameless(schema: &Schema<'_>, place: u32) -> bool
    ensures { result ≡ is_nameless schema.now place }
{
    let nodes = schema.document().nodes();
    is_among_at(nodes, &[Part::Element, Part::Attribute], place)
        && text_at(nodes, AttributeName::Name, place).is_none()
        && text_at(nodes, AttributeName::Ref, place).is_none()
}

/// Whether a group that is not declared here refers to none.
pub fn refers_to_none(schema: &Schema<'_>, place: u32) -> bool
    ensures { result ≡ refers_to_none schema.now place }
{
    let nodes = schema.document().nodes();
    is_among_at(nodes, &[Part::Group, Part::AttributeGroup], place)
        && !is_global(nodes, place)
        && text_at(nodes, AttributeName::Ref, place).is_none()
}

/// Whether a component has a name and refers to another.
pub fn is_named_and_refers(schema: &Schema<'_>, place: u32) -> bool
    ensures { result ≡ is_named_and_refers schema.now place }
{
    let nodes = schema.document().nodes();
    let parts = [
        Part::Element,
        Part::Attribute,
        Part::Group,
        Part::AttributeGroup,
    ];
    is_among_at(nodes, &parts, place)
        && text_at(nodes, AttributeName::Name, place).is_some()
        && text_at(nodes, AttributeName::Ref, place).is_some()
}

/// Whether the restriction or extension of a complex type names no base.
pub fn lacks_base(schema: &Schema<'_>, place: u32) -> bool
    ensures { result ≡ lacks_base schema.now place }
{
    let nodes = schema.document().nodes();
    is_among_at(nodes, &[Part::Restriction, Part::Extension], place)
        && !is_part(Part::SimpleType, holder(nodes, place))
        && text_at(nodes, AttributeName::Base, place).is_none()
}
