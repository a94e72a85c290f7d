//! Reads events that were spelled on pages, into a room.
ghost use Rattle.std.specs.Prelude.{◌≡◌, ◌+◌, ◌*◌, Some, None};
ghost use Rattle.exi_names.specs.Seen.{seen, vals, values_of};
ghost use Rattle.exi_tape.specs.Reading.{any_at, attribute_at, binary_at, boolean_at, characters_at, comment_at, decimal_at, doctype_at, element_at, entity_at, event_at, event_of_kind, float_at, fraction_at, fragment_at, held_at, instruction_at, integer_at, items_at, kind_of, list_at, moment_at, moment_value_at, name_at, name_value_at, namespace_at, prefix_at, some_short_at, some_text_at, some_wide_at, text_at, text_value_at, value_at, value_in, value_of_kind, values_at, zone_at};
ghost use Rattle.exi_tape.specs.Rooms.{held_of, made, name_of, some_if};
ghost use Rattle.exi_tape.specs.Walks.{Gives, GivesAlone, left};

use crate::room::{Held, Room, Shape};
use crate::walk::{Unread, Walk};
use exi_names::{Moment, MomentKind, QName, Txt, Val, ValList, Whole};
use std::alloc::Global;

/// The kind of date or time of a byte.
#[tactic(auto, unfolding(crate::specs::Reading::kind_of))]
fn kind_from(byte: u8) -> Result<MomentKind, Unread>
    ensures { GivesAlone (λ k. k) result (kind_of byte) }
{
    match byte {
        0 => Ok(MomentKind::GYear),
        1 => Ok(MomentKind::GYearMonth),
        2 => Ok(MomentKind::Date),
        3 => Ok(MomentKind::DateTime),
        4 => Ok(MomentKind::GMonth),
        5 => Ok(MomentKind::GMonthDay),
        6 => Ok(MomentKind::GDay),
        7 => Ok(MomentKind::Time),
        _ => Err(Unread::Broken),
    }
}

impl<'a> Walk<'a> {
    /// A prefix that may be there, in place of a text, and whether it is.
    #[inline]
    #[tactic(auto, unfolding(crate::specs::Reading::prefix_at, crate::specs::Reading::some_text_at))]
    fn prefix(&mut self, prefix: &mut Txt) -> Result<bool, Unread>
        ensures { Gives (λ there. some_if there prefix.new) result (left self.new) (prefix_at (left self.old)) }
    {
        if self.flag()? {
            self.text(prefix)?;
            return Ok(true);
        }
        Ok(false)
    }

    /// A name, in place of three texts, and whether it has a prefix.
    #[inline]
    #[tactic(auto, unfolding(crate::specs::Reading::name_at))]
    fn name(&mut self, uri: &mut Txt, local: &mut Txt, prefix: &mut Txt) -> Result<bool, Unread>
        ensures { Gives (name_of uri.new local.new prefix.new) result (left self.new) (name_at (left self.old)) }
    {
        self.text(uri)?;
        self.text(local)?;
        self.prefix(prefix)
    }

    /// A text with memory of its own.
    fn own_text(&mut self, alloc: Global) -> Result<Txt, Unread>
        ensures { Gives (λ t. t) result (left self.new) (text_at (left self.old)) }
    {
        let mut text = Txt::new(alloc);
        self.text(&mut text)?;
        Ok(text)
    }

    /// A prefix that may be there, with memory of its own.
    #[tactic(auto, unfolding(crate::specs::Reading::prefix_at, crate::specs::Reading::some_text_at))]
    fn own_prefix(&mut self, alloc: Global) -> Result<Option<Txt>, Unread>
        ensures { Gives (λ p. p) result (left self.new) (prefix_at (left self.old)) }
    {
        if self.flag()? {
            return Ok(Some(self.own_text(alloc)?));
        }
        Ok(None)
    }

    /// A name with memory of its own.
    #[tactic(auto, unfolding(crate::specs::Reading::name_at))]
    fn own_name(&mut self, alloc: Global) -> Result<QName, Unread>
        ensures { Gives (λ n. n) result (left self.new) (name_at (left self.old)) }
    {
        Ok(QName {
            uri: self.own_text(alloc)?,
            local: self.own_text(alloc)?,
            prefix: self.own_prefix(alloc)?,
        })
    }

    /// The fraction of a second.
    #[tactic(auto, unfolding(crate::specs::Reading::fraction_at, crate::specs::Reading::some_wide_at))]
    fn fraction(&mut self) -> Result<Option<u128>, Unread>
        ensures { Gives (λ n. n) result (left self.new) (fraction_at (left self.old)) }
    {
        if self.flag()? {
            return Ok(Some(self.wide()?));
        }
        Ok(None)
    }

    /// A zone.
    #[tactic(auto, unfolding(crate::specs::Reading::zone_at, crate::specs::Reading::some_short_at))]
    fn zone(&mut self) -> Result<Option<i16>, Unread>
        ensures { Gives (λ n. n) result (left self.new) (zone_at (left self.old)) }
    {
        if self.flag()? {
            return Ok(Some(self.short()?));
        }
        Ok(None)
    }

    /// A date or time.
    #[tactic(auto, unfolding(crate::specs::Reading::moment_at))]
    fn moment(&mut self) -> Result<Moment, Unread>
        ensures { Gives (λ m. m) result (left self.new) (moment_at (left self.old)) }
    {
        Ok(Moment {
            kind: kind_from(self.byte()?)?,
            year: self.signed()?,
            month: self.byte()?,
            day: self.byte()?,
            hour: self.byte()?,
            minute: self.byte()?,
            second: self.byte()?,
            fraction: self.fraction()?,
            zone: self.zone()?,
        })
    }

    /// A boolean.
    #[tactic(auto, unfolding(crate::specs::Reading::boolean_at))]
    fn boolean(&mut self) -> Result<Val, Unread>
        ensures { Gives seen result (left self.new) (boolean_at (left self.old)) }
    {
        Ok(Val::Bool {
            yes: self.flag()?,
            digit: self.flag()?,
        })
    }

    /// An integer.
    #[tactic(auto, unfolding(crate::specs::Reading::integer_at))]
    fn integer(&mut self) -> Result<Val, Unread>
        ensures { Gives seen result (left self.new) (integer_at (left self.old)) }
    {
        let minus = self.flag()?;
        Ok(Val::Int(Whole::new(minus, self.wide()?)))
    }

    /// A decimal.
    #[tactic(auto, unfolding(crate::specs::Reading::decimal_at))]
    fn decimal(&mut self) -> Result<Val, Unread>
        ensures { Gives seen result (left self.new) (decimal_at (left self.old)) }
    {
        Ok(Val::Dec {
            minus: self.flag()?,
            whole: self.wide()?,
            back: self.wide()?,
        })
    }

    /// A float.
    #[tactic(auto, unfolding(crate::specs::Reading::float_at))]
    fn float(&mut self) -> Result<Val, Unread>
        ensures { Gives seen result (left self.new) (float_at (left self.old)) }
    {
        Ok(Val::Flo {
            mantissa: self.signed()?,
            exponent: self.short()?,
        })
    }

    /// A date or time, as a value.
    #[tactic(auto, unfolding(crate::specs::Reading::moment_value_at))]
    fn moment_value(&mut self) -> Result<Val, Unread>
        ensures { Gives seen result (left self.new) (moment_value_at (left self.old)) }
    {
        Ok(Val::Mom(self.moment()?))
    }

    /// Octets, as a value.
    #[tactic(auto, unfolding(crate::specs::Reading::binary_at))]
    fn binary(&mut self, alloc: Global) -> Result<Val, Unread>
        ensures { Gives seen result (left self.new) (binary_at (left self.old)) }
    {
        Ok(Val::Bin {
            hex: self.flag()?,
            octets: self.octets(alloc)?,
        })
    }

    /// A text, as a value.
    #[tactic(auto, unfolding(crate::specs::Reading::text_value_at))]
    fn text_value(&mut self, alloc: Global) -> Result<Val, Unread>
        ensures { Gives seen result (left self.new) (text_value_at (left self.old)) }
    {
        Ok(Val::Text(self.own_text(alloc)?))
    }

    /// A name, as a value.
    #[tactic(auto, unfolding(crate::specs::Reading::name_value_at))]
    fn name_value(&mut self, alloc: Global) -> Result<Val, Unread>
        ensures { Gives seen result (left self.new) (name_value_at (left self.old)) }
    {
        Ok(Val::Name(self.own_name(alloc)?))
    }

    /// A list whose lists are nested less deep than that, as a value.
    #[cycle(value)]
    #[tactic(auto, unfolding(crate::specs::Reading::items_at))]
    fn items(&mut self, alloc: Global, depth: u64) -> Result<Val, Unread>
        ensures { Gives seen result (left self.new) (items_at (values_at depth) (left self.old)) }
    {
        Ok(Val::Items(self.list(alloc, depth)?))
    }

    /// The values of a list, in which lists are nested less deep than that.
    #[cycle(value)]
    fn list(&mut self, alloc: Global, depth: u64) -> Result<ValList, Unread>
        ensures { Gives (λ l. values_of (vals l)) result (left self.new) (values_at depth (left self.old)) }
    {
        if depth == 0 {
            return Err(Unread::Broken);
        }
        let count = self.number()?;
        let mut list = ValList::new(alloc);
        for _number in 0..count {
            let value = self.value(alloc, depth - 1)?;
            list.push(value)?;
        }
        Ok(list)
    }

    /// A value in which lists are nested as deep as that at most.
    #[cycle(value)]
    #[tactic(auto, unfolding(crate::specs::Reading::value_at, crate::specs::Reading::value_in, crate::specs::Reading::value_of_kind))]
    fn value(&mut self, alloc: Global, depth: u64) -> Result<Val, Unread>
        ensures { Gives seen result (left self.new) (value_at depth (left self.old)) }
    {
        match self.byte()? {
            0 => self.text_value(alloc),
            1 => self.boolean(),
            2 => self.integer(),
            3 => self.decimal(),
            4 => self.float(),
            5 => self.moment_value(),
            6 => self.binary(alloc),
            7 => self.items(alloc, depth),
            8 => self.name_value(alloc),
            _ => Err(Unread::Broken),
        }
    }

    /// A value that is no text.
    #[inline(never)]
    #[tactic(auto, unfolding(crate::specs::Reading::any_at))]
    fn any(&mut self, alloc: Global) -> Result<Val, Unread>
        ensures { Gives seen result (left self.new) (any_at (left self.old)) }
    {
        let size = self.number()?;
        self.value(alloc, size)
    }

    /// The value of an event, in place of a text or of a value, and which of both it is.
    #[inline]
    #[tactic(auto, unfolding(crate::specs::Reading::held_at, crate::specs::Reading::text_value_at))]
    fn held(&mut self, alloc: Global, text: &mut Txt, value: &mut Val) -> Result<Held, Unread>
        ensures { Gives (held_of text.new value.new) result (left self.new) (held_at (left self.old)) }
    {
        if self.flag()? {
            *value = self.any(alloc)?;
            return Ok(Held::Other);
        }
        self.text(text)?;
        Ok(Held::Text)
    }

    /// The beginning of an element.
    #[inline]
    #[tactic(auto, unfolding(crate::specs::Reading::element_at))]
    fn element(&mut self, room: &mut Room) -> Result<Shape, Unread>
        ensures { Gives (made room.new) result (left self.new) (element_at (left self.old)) }
    {
        let prefix = self.name(&mut room.first, &mut room.second, &mut room.third)?;
        Ok(Shape::Se { prefix })
    }

    /// An attribute.
    #[inline]
    #[tactic(auto, unfolding(crate::specs::Reading::attribute_at))]
    fn attribute(&mut self, alloc: Global, room: &mut Room) -> Result<Shape, Unread>
        ensures { Gives (made room.new) result (left self.new) (attribute_at (left self.old)) }
    {
        let prefix = self.name(&mut room.first, &mut room.second, &mut room.third)?;
        let held = self.held(alloc, &mut room.fourth, &mut room.value)?;
        Ok(Shape::At { prefix, held })
    }

    /// Characters.
    #[inline]
    #[tactic(auto, unfolding(crate::specs::Reading::characters_at))]
    fn characters(&mut self, alloc: Global, room: &mut Room) -> Result<Shape, Unread>
        ensures { Gives (made room.new) result (left self.new) (characters_at (left self.old)) }
    {
        let held = self.held(alloc, &mut room.fourth, &mut room.value)?;
        Ok(Shape::Ch(held))
    }

    /// A namespace declaration.
    #[tactic(auto, unfolding(crate::specs::Reading::namespace_at))]
    fn namespace(&mut self, room: &mut Room) -> Result<Shape, Unread>
        ensures { Gives (made room.new) result (left self.new) (namespace_at (left self.old)) }
    {
        let element = self.flag()?;
        self.text(&mut room.first)?;
        self.text(&mut room.second)?;
        Ok(Shape::Ns { element })
    }

    /// A self-contained fragment.
    #[tactic(auto, unfolding(crate::specs::Reading::fragment_at))]
    fn fragment(&mut self, room: &mut Room) -> Result<Shape, Unread>
        ensures { Gives (made room.new) result (left self.new) (fragment_at (left self.old)) }
    {
        let at = self.number()?;
        Ok(Shape::Sc { at })
    }

    /// A comment.
    #[tactic(auto, unfolding(crate::specs::Reading::comment_at))]
    fn comment(&mut self, room: &mut Room) -> Result<Shape, Unread>
        ensures { Gives (made room.new) result (left self.new) (comment_at (left self.old)) }
    {
        self.text(&mut room.first)?;
        Ok(Shape::Cm)
    }

    /// A processing instruction.
    #[tactic(auto, unfolding(crate::specs::Reading::instruction_at))]
    fn instruction(&mut self, room: &mut Room) -> Result<Shape, Unread>
        ensures { Gives (made room.new) result (left self.new) (instruction_at (left self.old)) }
    {
        self.text(&mut room.first)?;
        self.text(&mut room.second)?;
        Ok(Shape::Pi)
    }

    /// A document type declaration.
    #[tactic(auto, unfolding(crate::specs::Reading::doctype_at))]
    fn doctype(&mut self, room: &mut Room) -> Result<Shape, Unread>
        ensures { Gives (made room.new) result (left self.new) (doctype_at (left self.old)) }
    {
        self.text(&mut room.first)?;
        self.text(&mut room.second)?;
        self.text(&mut room.third)?;
        self.text(&mut room.fourth)?;
        Ok(Shape::Dt)
    }

    /// A reference to an entity.
    #[tactic(auto, unfolding(crate::specs::Reading::entity_at))]
    fn entity(&mut self, room: &mut Room) -> Result<Shape, Unread>
        ensures { Gives (made room.new) result (left self.new) (entity_at (left self.old)) }
    {
        self.text(&mut room.first)?;
        Ok(Shape::Er)
    }

    /// An event, in place of the one in the room, and which it is.
    #[tactic(auto, unfolding(crate::specs::Reading::event_at, crate::specs::Reading::event_of_kind))]
    pub(crate) fn event(&mut self, alloc: Global, room: &mut Room) -> Result<Shape, Unread>
        ensures { Gives (made room.new) result (left self.new) (event_at (left self.old)) }
    {
        match self.byte()? {
            0 => Ok(Shape::Sd),
            1 => Ok(Shape::Ed),
            2 => self.element(room),
            3 => Ok(Shape::Ee),
            4 => self.attribute(alloc, room),
            5 => self.characters(alloc, room),
            6 => self.namespace(room),
            7 => self.fragment(room),
            8 => self.comment(room),
            9 => self.instruction(room),
            10 => self.doctype(room),
            11 => self.entity(room),
            _ => Err(Unread::Broken),
        }
    }
}
