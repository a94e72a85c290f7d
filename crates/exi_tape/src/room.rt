//! Where events are made, one after another.
ghost use Rattle.std.specs.Prelude.{◌≡◌, Some, map};
ghost use Rattle.std.specs.Option.{option_copied};
ghost use Rattle.exi_names.specs.Shown.{named, shown, shows};
ghost use Rattle.exi_tape.specs.Rooms.{held_in, made, named_in, some_if};

use exi_names::{EventRef, NameRef, Txt, Val, ValRef};
use std::alloc::Global;

/// What an event's value is.
#[derive(Clone, Copy, Debug)]
pub(crate) enum Held {
    /// The last text of the room.
    Text,
    /// The value of the room.
    Other,
}

/// Which event stands in a room.
#[derive(Clone, Copy, Debug)]
pub(crate) enum Shape {
    /// The document or fragment begins.
    Sd,
    /// The document or fragment ends.
    Ed,
    /// An element begins. Its name has a prefix or none.
    Se {
        /// Whether there is a prefix.
        prefix: bool,
    },
    /// The element ends.
    Ee,
    /// An attribute.
    At {
        /// Whether its name has a prefix.
        prefix: bool,
        /// Its value.
        held: Held,
    },
    /// Characters.
    Ch(Held),
    /// A namespace declaration.
    Ns {
        /// Whether this prefix is that of the element itself.
        element: bool,
    },
    /// A self-contained fragment.
    Sc {
        /// Where it begins.
        at: u64,
    },
    /// A comment.
    Cm,
    /// A processing instruction.
    Pi,
    /// A document type declaration.
    Dt,
    /// A reference to an entity.
    Er,
}

/// Room for the texts and the value of one event. A name has its URI in the first text, its local name in the second
/// and its prefix in the third; any other event has its texts in order.
#[derive(Drop)]
pub(crate) struct Room {
    pub(crate) first: Txt,
    pub(crate) second: Txt,
    pub(crate) third: Txt,
    pub(crate) fourth: Txt,
    pub(crate) value: Val,
}

impl Room {
    /// An empty room.
    pub(crate) fn new(alloc: Global) -> Room {
        Room {
            first: Txt::new(alloc),
            second: Txt::new(alloc),
            third: Txt::new(alloc),
            fourth: Txt::new(alloc),
            value: Val::Bool {
                yes: false,
                digit: false,
            },
        }
    }

    /// The prefix that may be there.
    #[inline]
    fn prefix(&self, there: bool) -> Option<&Txt>
        ensures { option_copied result ≡ some_if there self.now.third }
    {
        if there { Some(&self.third) } else { None }
    }

    /// The name.
    #[inline]
    fn name(&self, prefix: bool) -> NameRef<'_>
        ensures { named result ≡ named_in prefix self.now }
    {
        NameRef {
            uri: &self.first,
            local: &self.second,
            prefix: self.prefix(prefix),
        }
    }

    /// The value.
    #[inline]
    fn held(&self, held: Held) -> ValRef<'_>
        ensures { shown result ≡ held_in held self.now }
    {
        match held {
            Held::Text => ValRef::Text(&self.fourth),
            Held::Other => ValRef::Any(&self.value),
        }
    }

    /// The event.
    #[inline]
    pub(crate) fn event(&self, shape: Shape) -> EventRef<'_>
        ensures { shows result ≡ made self.now shape }
    {
        match shape {
            Shape::Sd => EventRef::Sd,
            Shape::Ed => EventRef::Ed,
            Shape::Se { prefix } => EventRef::Se(self.name(prefix)),
            Shape::Ee => EventRef::Ee,
            Shape::At { prefix, held } => EventRef::At(self.name(prefix), self.held(held)),
            Shape::Ch(held) => EventRef::Ch(self.held(held)),
            Shape::Ns { element } => EventRef::Ns {
                uri: &self.first,
                prefix: &self.second,
                element,
            },
            Shape::Sc { at } => EventRef::Sc { at },
            Shape::Cm => EventRef::Cm(&self.first),
            Shape::Pi => EventRef::Pi {
                target: &self.first,
                text: &self.second,
            },
            Shape::Dt => EventRef::Dt {
                name: &self.first,
                public: &self.second,
                system: &self.third,
                text: &self.fourth,
            },
            Shape::Er => EventRef::Er(&self.first),
        }
    }
}
