ghost use Rattle.std.specs.Prelude.{◌≡◌};
ghost use Rattle.xsd_model.specs.Parts.{AreForms, IsSchemaParts, representations};

use crate::parts::{AttributeDecl, AttributeGroup, ElementDecl, Form, Group, Particle, TypeDef};
use exi_gram::Items;
use exi_names::Txt;
use std::marker::Model;

/// What a schema declares (XML Schema 1.0 Part 1, section 2.2), each part by the places of what it names.
///
/// Elements, attributes, groups and particles stand in the order of the document, and types so behind the 46 built-in
/// ones. Each place in it exists, but for those of a name that has no declaration there is none. No type reaches itself by
/// its bases, no element by the heads of substitution groups, and no group by the groups that it names; no particle stands
/// more often at least than at most; an attribute's type and the type of a content that is a value are simple.
#[derive(Debug, Drop)]
pub struct Components {
    target: Txt,
    elements: Items<ElementDecl>,
    attributes: Items<AttributeDecl>,
    types: Items<TypeDef>,
    groups: Items<Group>,
    attribute_groups: Items<AttributeGroup>,
    particles: Items<Particle>,
    forms: Items<Form>,
}

impl Model for Components {
    ghost use Rattle.xsd_model.specs.Parts.{AreForms, IsSchemaParts, Parts, representations};

    ghost Value = { Parts };

    ghost use Rattle.exi_names.proofs.Codes.{representation_code};
    ghost use Rattle.std.specs.Coded.{codes};

    ghost coded = { Prim.hlevel (codes, representation_code) };

    ghost view = { λ c.
        record {
          target = c.target;
          elements = c.elements;
          attributes = c.attributes;
          types = c.types;
          groups = c.groups;
          attribute_groups = c.attribute_groups;
          particles = c.particles;
          forms = representations c.forms;
        } };

    ghost invariant = { λ c.
        AreForms 0 c.forms
        × IsSchemaParts
        (record {
          target = c.target;
          elements = c.elements;
          attributes = c.attributes;
          types = c.types;
          groups = c.groups;
          attribute_groups = c.attribute_groups;
          particles = c.particles;
          forms = representations c.forms;
        }) };
}

impl Components {
    /// The components of these parts, which have to fit together as every schema's do.
    #[allow(clippy::too_many_arguments)]
    pub fn of(
        target: Txt,
        elements: Items<ElementDecl>,
        attributes: Items<AttributeDecl>,
        types: Items<TypeDef>,
        groups: Items<Group>,
        attribute_groups: Items<AttributeGroup>,
        particles: Items<Particle>,
        forms: Items<Form>,
    ) -> Components
        requires forms { AreForms 0 forms }
        requires parts { IsSchemaParts
            (record {
              target = target;
              elements = elements;
              attributes = attributes;
              types = types;
              groups = groups;
              attribute_groups = attribute_groups;
              particles = particles;
              forms = representations forms;
            }) }
        ensures { result
            ≡ record {
              target = target;
              elements = elements;
              attributes = attributes;
              types = types;
              groups = groups;
              attribute_groups = attribute_groups;
              particles = particles;
              forms = representations forms;
            } }
    {
        Components {
            target,
            elements,
            attributes,
            types,
            groups,
            attribute_groups,
            particles,
            forms,
        }
    }

    /// The target namespace of the document, of several that of the first; empty where it has none.
    pub fn target(&self) -> &Txt
        ensures target { result.now ≡ self.now.target }
        ensures parts { IsSchemaParts self.now }
    {
        &self.target
    }

    /// The elements, in the document's order.
    pub fn elements(&self) -> &[ElementDecl]
        ensures elements { result.now ≡ self.now.elements }
        ensures parts { IsSchemaParts self.now }
    {
        self.elements.as_slice()
    }

    /// The attributes, in the document's order.
    pub fn attributes(&self) -> &[AttributeDecl]
        ensures attributes { result.now ≡ self.now.attributes }
        ensures parts { IsSchemaParts self.now }
    {
        self.attributes.as_slice()
    }

    /// The types: the 46 built-in ones by name, and then the document's in its order.
    pub fn types(&self) -> &[TypeDef]
        ensures types { result.now ≡ self.now.types }
        ensures parts { IsSchemaParts self.now }
    {
        self.types.as_slice()
    }

    /// The groups of elements, in the document's order.
    pub fn groups(&self) -> &[Group]
        ensures groups { result.now ≡ self.now.groups }
        ensures parts { IsSchemaParts self.now }
    {
        self.groups.as_slice()
    }

    /// The groups of attributes, in the document's order.
    pub fn attribute_groups(&self) -> &[AttributeGroup]
        ensures attribute_groups { result.now ≡ self.now.attribute_groups }
        ensures parts { IsSchemaParts self.now }
    {
        self.attribute_groups.as_slice()
    }

    /// The particles, in the document's order: those within one behind it.
    pub fn particles(&self) -> &[Particle]
        ensures particles { result.now ≡ self.now.particles }
        ensures parts { IsSchemaParts self.now }
    {
        self.particles.as_slice()
    }

    /// How values of simple types are represented: a list's items by a form before it.
    pub fn forms(&self) -> &[Form]
        ensures forms { representations result.now ≡ self.now.forms }
        ensures before { AreForms 0 result.now }
        ensures parts { IsSchemaParts self.now }
    {
        self.forms.as_slice()
    }
}
