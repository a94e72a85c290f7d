ghost use Rattle.std.specs.Prelude.{◌≡◌, ◌≤◌, ◌^◌, IfOk};
ghost use Rattle.xsd_places.specs.Kinds.{is_kind, place_of, place_of_type, type_place};
ghost use Rattle.xsd_places.specs.declared.kind.Kind.TheVariants as kind;
ghost use Rattle.xsd_tree.specs.Trees.{IsTree};

use crate::counts::{Counts, count_at, counts_of};
use crate::kind::Kind;
use std::alloc::{AllocError, Global};
use std::marker::Model;
use xsd_components::{Schema, TypeAt};

/// A schema document, seen as the list of its elements, with the place of each among those of its kind.
#[derive(Debug, Drop)]
pub struct Places<'a> {
    schema: &'a Schema<'a>,
    elements: Counts,
    attributes: Counts,
    types: Counts,
    simples: Counts,
    groups: Counts,
    attribute_groups: Counts,
    particles: Counts,
}

impl<'a> Model for Places<'a> {
    ghost use Rattle.std.specs.Prelude.{List, length};
    ghost use Rattle.xsd_places.specs.Counted.{IsCounted};
    ghost use Rattle.xsd_places.specs.Kinds.{is_kind};
    ghost use Rattle.xsd_places.specs.declared.kind.Kind.TheVariants as kind;
    ghost use Rattle.xsd_tree.specs.declared.node.Node.{Node};

    ghost Value = { List Node };

    ghost view = { λ p. p.schema.now };

    ghost invariant = { λ p.
        IsCounted (is_kind kind.Element p.schema.now) (length p.schema.now) p.elements
        × IsCounted (is_kind kind.Attribute p.schema.now) (length p.schema.now) p.attributes
        × IsCounted (is_kind kind.Type p.schema.now) (length p.schema.now) p.types
        × IsCounted (is_kind kind.Simple p.schema.now) (length p.schema.now) p.simples
        × IsCounted (is_kind kind.Group p.schema.now) (length p.schema.now) p.groups
        × IsCounted (is_kind kind.AttributeGroup p.schema.now) (length p.schema.now) p.attribute_groups
        × IsCounted (is_kind kind.Particle p.schema.now) (length p.schema.now) p.particles };
}

impl<'a> Places<'a> {
    /// The places of a schema's components.
    ///
    /// # Errors
    ///
    /// `AllocError` where memory is refused.
    pub fn of(alloc: Global, schema: &'a Schema<'a>) -> Result<Places<'a>, AllocError>
        ensures { IfOk result (λ p. p ≡ schema.now) }
    {
        let nodes = schema.document().nodes();
        Ok(Places {
            schema,
            elements: counts_of(alloc, Kind::Element, nodes)?,
            attributes: counts_of(alloc, Kind::Attribute, nodes)?,
            types: counts_of(alloc, Kind::Type, nodes)?,
            simples: counts_of(alloc, Kind::Simple, nodes)?,
            groups: counts_of(alloc, Kind::Group, nodes)?,
            attribute_groups: counts_of(alloc, Kind::AttributeGroup, nodes)?,
            particles: counts_of(alloc, Kind::Particle, nodes)?,
        })
    }

    /// The schema.
    pub fn schema(&self) -> &Schema<'a>
        ensures { result.now ≡ self.now }
    {
        self.schema
    }

    /// The place of a component among those of its kind: how many of them the document declares before the element at a place.
    pub fn place(&self, kind: Kind, place: u32) -> u32
        ensures place { result ≡ place_of kind self.now place }
        ensures few { result ≤ 2 ^ 28 }
    {
        let counts = match kind {
            Kind::Element => &self.elements,
            Kind::Attribute => &self.attributes,
            Kind::Type => &self.types,
            Kind::Simple => &self.simples,
            Kind::Group => &self.groups,
            Kind::AttributeGroup => &self.attribute_groups,
            Kind::Particle => &self.particles,
        };
        count_at(counts, kind, self.schema.document().nodes(), place)
    }

    /// The place of a type, behind the built-in ones.
    pub fn place_of_type(&self, of: TypeAt) -> u32
        ensures { result ≡ place_of_type self.now of }
    {
        match of {
            TypeAt::Built(place) => place,
            TypeAt::Node(place) => 46 + self.place(Kind::Type, place),
        }
    }

    /// The place of a simple type among the simple ones, behind the built-in ones.
    pub fn place_of_simple(&self, of: TypeAt) -> u32
        ensures { result ≡ type_place (is_kind kind.Simple self.now) of }
    {
        match of {
            TypeAt::Built(place) => place,
            TypeAt::Node(place) => 46 + self.place(Kind::Simple, place),
        }
    }
}
