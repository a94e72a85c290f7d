//! The slots within each element.

ghost use Rattle.std.specs.Prelude.{◌≡◌, map};
ghost use Rattle.xsd_slots.specs.Shown.{found, shown};
ghost use Rattle.xsd_slots.specs.Slots.{attribute_group_slots, extension_slots, group_slots, own_in, restriction_slots, slot_in, slot_of, slots};

use xsd_nodes::{Part, holder, is_among, part_at};
use xsd_tree::Node;

/// Where some of what an element holds may stand.
#[derive(Clone, Copy, Debug)]
pub(crate) struct Slot {
    /// What may stand there.
    pub parts: &'static [Part],
    /// The latest slot to which what stands before it may have come.
    pub after: u32,
    /// The slot to which it brings what holds it.
    pub own: u32,
}

/// Within a group that is declared: one group of elements.
fn group_slots(outer: Part) -> &'static [Slot]
    ensures { map shown result.now ≡ group_slots outer }
{
    match outer {
        Part::Schema | Part::Redefine => {
            &[Slot {
                parts: &[Part::All, Part::Choice, Part::Sequence],
                after: 0,
                own: 1,
            }]
        }
        _ => &[],
    }
}

/// Within a group of attributes that is declared.
fn attribute_group_slots(outer: Part) -> &'static [Slot]
    ensures { map shown result.now ≡ attribute_group_slots outer }
{
    match outer {
        Part::Schema | Part::Redefine => &[
            Slot {
                parts: &[Part::Attribute, Part::AttributeGroup],
                after: 3,
                own: 3,
            },
            Slot {
                parts: &[Part::AnyAttribute],
                after: 3,
                own: 4,
            },
        ],
        _ => &[],
    }
}

/// Within a `restriction`, by what holds it.
fn restriction_slots(outer: Part) -> &'static [Slot]
    ensures { map shown result.now ≡ restriction_slots outer }
{
    match outer {
        Part::SimpleType => &[
            Slot {
                parts: &[Part::SimpleType],
                after: 0,
                own: 1,
            },
            Slot {
                parts: &[
                    Part::Enumeration,
                    Part::Pattern,
                    Part::MinInclusive,
                    Part::MinExclusive,
                    Part::MaxInclusive,
                    Part::MaxExclusive,
                    Part::PlainFacet,
                ],
                after: 2,
                own: 2,
            },
        ],
        Part::SimpleContent => &[
            Slot {
                parts: &[Part::SimpleType],
                after: 0,
                own: 1,
            },
            Slot {
                parts: &[
                    Part::Enumeration,
                    Part::Pattern,
                    Part::MinInclusive,
                    Part::MinExclusive,
                    Part::MaxInclusive,
                    Part::MaxExclusive,
                    Part::PlainFacet,
                ],
                after: 2,
                own: 2,
            },
            Slot {
                parts: &[Part::Attribute, Part::AttributeGroup],
                after: 3,
                own: 3,
            },
            Slot {
                parts: &[Part::AnyAttribute],
                after: 3,
                own: 4,
            },
        ],
        Part::ComplexContent => &[
            Slot {
                parts: &[Part::Group, Part::All, Part::Choice, Part::Sequence],
                after: 0,
                own: 2,
            },
            Slot {
                parts: &[Part::Attribute, Part::AttributeGroup],
                after: 3,
                own: 3,
            },
            Slot {
                parts: &[Part::AnyAttribute],
                after: 3,
                own: 4,
            },
        ],
        _ => &[],
    }
}

/// Within an `extension`, by what holds it.
fn extension_slots(outer: Part) -> &'static [Slot]
    ensures { map shown result.now ≡ extension_slots outer }
{
    match outer {
        Part::SimpleContent => &[
            Slot {
                parts: &[Part::Attribute, Part::AttributeGroup],
                after: 3,
                own: 3,
            },
            Slot {
                parts: &[Part::AnyAttribute],
                after: 3,
                own: 4,
            },
        ],
        Part::ComplexContent => &[
            Slot {
                parts: &[Part::Group, Part::All, Part::Choice, Part::Sequence],
                after: 0,
                own: 2,
            },
            Slot {
                parts: &[Part::Attribute, Part::AttributeGroup],
                after: 3,
                own: 3,
            },
            Slot {
                parts: &[Part::AnyAttribute],
                after: 3,
                own: 4,
            },
        ],
        _ => &[],
    }
}

/// Within an element, by what it is and what holds it.
fn slots(outer: Part, part: Part) -> &'static [Slot]
    ensures { map shown result.now ≡ slots outer part }
{
    match part {
        Part::Schema => &[
            Slot {
                parts: &[Part::Include, Part::Import, Part::Redefine],
                after: 1,
                own: 1,
            },
            Slot {
                parts: &[
                    Part::SimpleType,
                    Part::ComplexType,
                    Part::Group,
                    Part::AttributeGroup,
                    Part::Element,
                    Part::Attribute,
                    Part::Notation,
                ],
                after: 2,
                own: 2,
            },
        ],
        Part::Redefine => &[Slot {
            parts: &[
                Part::SimpleType,
                Part::ComplexType,
                Part::Group,
                Part::AttributeGroup,
            ],
            after: 1,
            own: 1,
        }],
        Part::Element => &[
            Slot {
                parts: &[Part::SimpleType, Part::ComplexType],
                after: 0,
                own: 1,
            },
            Slot {
                parts: &[Part::Identity],
                after: 2,
                own: 2,
            },
        ],
        Part::Attribute | Part::List => &[Slot {
            parts: &[Part::SimpleType],
            after: 0,
            own: 1,
        }],
        Part::ComplexType => &[
            Slot {
                parts: &[Part::SimpleContent, Part::ComplexContent],
                after: 0,
                own: 5,
            },
            Slot {
                parts: &[Part::Group, Part::All, Part::Choice, Part::Sequence],
                after: 0,
                own: 2,
            },
            Slot {
                parts: &[Part::Attribute, Part::AttributeGroup],
                after: 3,
                own: 3,
            },
            Slot {
                parts: &[Part::AnyAttribute],
                after: 3,
                own: 4,
            },
        ],
        Part::SimpleContent | Part::ComplexContent => {
            &[Slot {
                parts: &[Part::Restriction, Part::Extension],
                after: 0,
                own: 1,
            }]
        }
        Part::Restriction => restriction_slots(outer),
        Part::Extension => extension_slots(outer),
        Part::SimpleType => {
            &[Slot {
                parts: &[Part::Restriction, Part::List, Part::Union],
                after: 0,
                own: 1,
            }]
        }
        Part::Union => &[Slot {
            parts: &[Part::SimpleType],
            after: 1,
            own: 1,
        }],
        Part::Group => group_slots(outer),
        Part::AttributeGroup => attribute_group_slots(outer),
        Part::Sequence | Part::Choice => &[Slot {
            parts: &[
                Part::Element,
                Part::Group,
                Part::Choice,
                Part::Sequence,
                Part::Any,
            ],
            after: 1,
            own: 1,
        }],
        Part::All => &[Slot {
            parts: &[Part::Element],
            after: 1,
            own: 1,
        }],
        Part::Identity => &[
            Slot {
                parts: &[Part::Selector],
                after: 0,
                own: 1,
            },
            Slot {
                parts: &[Part::Field],
                after: 2,
                own: 2,
            },
        ],
        _ => &[],
    }
}

/// The first of these slots in which the part may stand.
fn slot_of(slots: &[Slot], part: Part) -> Option<Slot>
    ensures { found result ≡ slot_of (map shown slots.now) part }
{
    for slot in slots {
        if is_among(slot.parts, part) {
            return Some(*slot);
        }
    }
    None
}

/// The slot in which one element may hold another, in whatever order.
pub(crate) fn slot_in(nodes: &[Node], parent: u32, place: u32) -> Option<Slot>
    ensures { found result ≡ slot_in nodes.now parent place }
{
    let slots = slots(holder(nodes, parent), part_at(nodes, parent));
    slot_of(slots, part_at(nodes, place))
}

/// The slot to which one element brings another that holds it.
pub(crate) fn own_in(nodes: &[Node], parent: u32, place: u32) -> u32
    ensures { result ≡ own_in nodes.now parent place }
{
    match slot_in(nodes, parent, place) {
        Some(slot) => slot.own,
        None => 0,
    }
}
