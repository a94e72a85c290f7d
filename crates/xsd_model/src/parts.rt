//! The parts of a schema: what it declares, each by the places of what it names.

use exi_gram::Items;
use exi_names::{Datatype, QName, TxtList};

/// An element that a schema declares (XML Schema 1.0 Part 1, section 3.3).
#[derive(Debug, Drop)]
pub struct ElementDecl {
    /// Its name.
    pub name: QName,
    /// The place of its type.
    pub of: u32,
    /// Whether `xsi:nil` can empty it.
    pub nillable: bool,
    /// Whether it is declared directly in the schema.
    pub global: bool,
    /// The place of the element that it may stand for, the head of its substitution group.
    pub head: Option<u32>,
    /// The number of its start among the document's events, counted from 1.
    pub event: u64,
}

/// An attribute that a schema declares (XML Schema 1.0 Part 1, section 3.2).
#[derive(Debug, Drop)]
pub struct AttributeDecl {
    /// Its name.
    pub name: QName,
    /// The place of its type, which is a simple one.
    pub of: u32,
    /// Whether it is declared directly in the schema.
    pub global: bool,
    /// The number of its start among the document's events, counted from 1.
    pub event: u64,
}

/// A type (XML Schema 1.0 Part 1, sections 3.4 and 3.14).
#[derive(Debug, Drop)]
pub struct TypeDef {
    /// Its name, where it is a built-in type or one that stands directly in the schema.
    pub name: Option<QName>,
    /// The place of the type that it is derived from; `xs:anyType` alone has none.
    pub base: Option<u32>,
    /// What it is.
    pub body: TypeBody,
    /// The number of its start among the document's events, counted from 1; 0 for a built-in type.
    pub event: u64,
}

/// What a type is.
#[derive(Debug, Drop)]
pub enum TypeBody {
    /// A simple type.
    Simple {
        /// The place of how its values are represented.
        form: u32,
        /// Whether it is a union, so that `xsi:type` can name another type in its place.
        union: bool,
    },
    /// A complex type.
    Complex(Complex),
    /// `xs:anyType`.
    Ur,
}

/// How values are represented (EXI 1.0, section 7). Types of one representation share it.
#[derive(Debug, Drop)]
pub enum Form {
    /// As this datatype, which is no list.
    Item(Datatype),
    /// As a list of items of the form at this place, which stands before it.
    List(u32),
}

/// How a complex type is derived from its base.
#[derive(Clone, Copy, Debug, PartialEq, Eq)]
pub enum Derivation {
    /// It has the base's content and then its own, and the base's attributes beside its own.
    Extension,
    /// It has its own content, and the base's attributes beside its own.
    Restriction,
}

/// A complex type (XML Schema 1.0 Part 1, section 3.4), as it stands in the document: the attributes and the content of
/// its base are found there, so that a chain of types takes no more room than the document.
#[derive(Debug, Drop)]
pub struct Complex {
    /// How it is derived from its base.
    pub derivation: Derivation,
    /// Its own attributes, in the document's order. Of two uses of one name the later counts, and one of its own counts
    /// more than one of the base.
    pub uses: Items<AttributeUse>,
    /// What its attribute wildcard and those of the groups that it names allow together, or where an extension has none,
    /// what that of its base does.
    pub wild: Option<Wild>,
    /// Its own content.
    pub content: Content,
}

/// What a type or a group of attributes says of an attribute.
#[derive(Debug, Drop)]
pub enum AttributeUse {
    /// It may stand.
    Use {
        /// The place of the attribute.
        attribute: u32,
        /// Whether it has to stand.
        required: bool,
    },
    /// The one of this name may not stand, though the base allows it.
    Prohibited(QName),
    /// What the group of attributes at this place says.
    Group(u32),
}

/// A wildcard (XML Schema 1.0 Part 1, section 3.10), as an EXI grammar tells it apart.
#[derive(Debug, Drop)]
pub enum Wild {
    /// It allows any name, or any but those of one namespace.
    Any,
    /// It allows the names of these namespaces, listed without repeats; none where what two wildcards allow has nothing
    /// in common.
    Listed(TxtList),
}

/// The content of a complex type.
#[derive(Debug, Drop)]
pub enum Content {
    /// Nothing: in an extension what its base has, and else no content.
    Empty,
    /// A value of the simple type at this place, which the base may have given.
    Simple(u32),
    /// Elements.
    Parts {
        /// The place of the particle, where there is one.
        particle: Option<u32>,
        /// Whether text may stand among them.
        mixed: bool,
    },
}

/// A particle (XML Schema 1.0 Part 1, section 3.9).
#[derive(Debug, Drop)]
pub struct Particle {
    /// How often it stands at least.
    pub least: u32,
    /// How often it stands at most, where there is a bound.
    pub most: Option<u32>,
    /// What stands.
    pub term: Term,
}

/// What a particle is of. The places of particles within it lie behind its own.
#[derive(Debug, Drop)]
pub enum Term {
    /// The element at this place.
    Element(u32),
    /// The group at this place.
    Group(u32),
    /// The particles at these places, one after another.
    Sequence(Items<u32>),
    /// One of the particles at these places.
    Choice(Items<u32>),
    /// An element that a wildcard allows.
    Wild(Wild),
}

/// A group of elements (XML Schema 1.0 Part 1, section 3.7). It is never expanded here.
#[derive(Debug, Drop)]
pub struct Group {
    /// The place of its particle, where it has one.
    pub particle: Option<u32>,
    /// The number of its start among the document's events, counted from 1.
    pub event: u64,
}

/// A group of attributes (XML Schema 1.0 Part 1, section 3.6). It is never expanded here.
#[derive(Debug, Drop)]
pub struct AttributeGroup {
    /// What it says of attributes, in the document's order.
    pub uses: Items<AttributeUse>,
}
