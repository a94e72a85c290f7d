ghost use Rattle.std.specs.Prelude.{◌≡◌, map, length};
ghost use Rattle.std.specs.Str.{chars};
ghost use Rattle.xsd_nodes.specs.PartNames.{is_among, is_part, part_named, part_number, part_words};

use crate::text::is_text;
use exi_names::Txt;

/// What an element of a schema document is.
#[derive(Clone, Copy, Debug, PartialEq, Eq)]
pub enum Part {
    /// `schema`.
    Schema,
    /// `include`.
    Include,
    /// `import`.
    Import,
    /// `redefine`.
    Redefine,
    /// `notation`.
    Notation,
    /// `annotation`.
    Annotation,
    /// `element`.
    Element,
    /// `attribute`.
    Attribute,
    /// `complexType`.
    ComplexType,
    /// `simpleType`.
    SimpleType,
    /// `simpleContent`.
    SimpleContent,
    /// `complexContent`.
    ComplexContent,
    /// `restriction`.
    Restriction,
    /// `extension`.
    Extension,
    /// `list`.
    List,
    /// `union`.
    Union,
    /// `sequence`.
    Sequence,
    /// `choice`.
    Choice,
    /// `all`.
    All,
    /// `group`.
    Group,
    /// `attributeGroup`.
    AttributeGroup,
    /// `any`.
    Any,
    /// `anyAttribute`.
    AnyAttribute,
    /// `enumeration`.
    Enumeration,
    /// `pattern`.
    Pattern,
    /// `minInclusive`.
    MinInclusive,
    /// `minExclusive`.
    MinExclusive,
    /// `maxInclusive`.
    MaxInclusive,
    /// `maxExclusive`.
    MaxExclusive,
    /// A facet that has no effect on how values are represented, as `length`.
    PlainFacet,
    /// A constraint of identity: `key`, `keyref` or `unique`.
    Identity,
    /// `selector`, in a constraint of identity.
    Selector,
    /// `field`, in a constraint of identity.
    Field,
    /// An element of another name or namespace.
    Other,
}

/// The local names of the elements that have a meaning, and what each stands for.
#[tactic(auto, unfolding(crate::specs::PartNames::part_words))]
fn words() -> &'static [(&'static str, Part)]
    ensures { map (λ w. (chars w.0.now, w.1)) result.now ≡ part_words }
{
    &[
        ("schema", Part::Schema),
        ("include", Part::Include),
        ("import", Part::Import),
        ("redefine", Part::Redefine),
        ("notation", Part::Notation),
        ("annotation", Part::Annotation),
        ("element", Part::Element),
        ("attribute", Part::Attribute),
        ("complexType", Part::ComplexType),
        ("simpleType", Part::SimpleType),
        ("simpleContent", Part::SimpleContent),
        ("complexContent", Part::ComplexContent),
        ("restriction", Part::Restriction),
        ("extension", Part::Extension),
        ("list", Part::List),
        ("union", Part::Union),
        ("sequence", Part::Sequence),
        ("choice", Part::Choice),
        ("all", Part::All),
        ("group", Part::Group),
        ("attributeGroup", Part::AttributeGroup),
        ("any", Part::Any),
        ("anyAttribute", Part::AnyAttribute),
        ("enumeration", Part::Enumeration),
        ("pattern", Part::Pattern),
        ("minInclusive", Part::MinInclusive),
        ("minExclusive", Part::MinExclusive),
        ("maxInclusive", Part::MaxInclusive),
        ("maxExclusive", Part::MaxExclusive),
        ("length", Part::PlainFacet),
        ("minLength", Part::PlainFacet),
        ("maxLength", Part::PlainFacet),
        ("totalDigits", Part::PlainFacet),
        ("fractionDigits", Part::PlainFacet),
        ("whiteSpace", Part::PlainFacet),
        ("key", Part::Identity),
        ("keyref", Part::Identity),
        ("unique", Part::Identity),
        ("selector", Part::Selector),
        ("field", Part::Field),
    ]
}

/// What an element of XML Schema is that has this local name.
pub fn part_named(name: &Txt) -> Part
    ensures { result ≡ part_named name.now }
{
    let words = words();
    for word in words {
        if is_text(name, word.0) {
            return word.1;
        }
    }
    Part::Other
}

/// The number that tells what an element is from what others are.
fn part_number(part: Part) -> u32
    ensures { result ≡ part_number part }
{
    match part {
        Part::Schema => 0,
        Part::Include => 1,
        Part::Import => 2,
        Part::Redefine => 3,
        Part::Notation => 4,
        Part::Annotation => 5,
        Part::Element => 6,
        Part::Attribute => 7,
        Part::ComplexType => 8,
        Part::SimpleType => 9,
        Part::SimpleContent => 10,
        Part::ComplexContent => 11,
        Part::Restriction => 12,
        Part::Extension => 13,
        Part::List => 14,
        Part::Union => 15,
        Part::Sequence => 16,
        Part::Choice => 17,
        Part::All => 18,
        Part::Group => 19,
        Part::AttributeGroup => 20,
        Part::Any => 21,
        Part::AnyAttribute => 22,
        Part::Enumeration => 23,
        Part::Pattern => 24,
        Part::MinInclusive => 25,
        Part::MinExclusive => 26,
        Part::MaxInclusive => 27,
        Part::MaxExclusive => 28,
        Part::PlainFacet => 29,
        Part::Identity => 30,
        Part::Selector => 31,
        Part::Field => 32,
        Part::Other => 33,
    }
}

/// Whether both are the same.
pub fn is_part(part: Part, other: Part) -> bool
    ensures { result ≡ is_part part other }
{
    part_number(part) == part_number(other)
}

/// Whether it is one of these.
pub fn is_among(parts: &[Part], part: Part) -> bool
    ensures { result ≡ is_among parts.now part }
{
    for one in parts {
        if is_part(part, *one) {
            return true;
        }
    }
    false
}
