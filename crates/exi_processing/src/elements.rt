ghost use Rattle.std.specs.Prelude.{◌≡◌, ◌∷◌, [], IsTrue, ◌↔◌, OnOk, OnErr, length};
ghost use Rattle.exi_processing.specs.Changes.{emptied_elements, emptied_state, enclosing, has_level, innermost, moved_elements, moved_room, moved_state, restated};
ghost use Rattle.exi_processing.specs.Stacks.{HasForm, HaveForm, first_element};

use crate::frames::{Element, Outer, State};
use exi_builtin::Room;
use exi_names::NameId;
use std::alloc::{AllocError, Global};
use std::marker::Model;

/// The open elements. A contract sees them as a list, the innermost first.
#[derive(Drop)]
pub struct Elements {
    items: Vec<Element>,
}

impl Model for Elements {
    ghost use Rattle.std.specs.Prelude.{List, reverse};
    ghost use Rattle.exi_processing.specs.declared.frames.Element.{Element};

    ghost Value = { List Element };

    ghost view = { λ e. reverse e.items.items };
}

impl Elements {
    /// None is open.
    pub fn new(alloc: Global) -> Elements
        ensures { result ≡ [] }
    {
        Elements {
            items: Vec::new(alloc),
        }
    }

    /// The innermost.
    #[inline(always)]
    pub fn innermost(&self) -> Option<Element>
        ensures { result ≡ first_element self.now }
    {
        self.items.last().copied()
    }

    /// How many are open.
    #[inline(always)]
    pub fn len(&self) -> usize
        ensures { result ≡ length self.now }
    {
        self.items.len()
    }

    /// One more is open.
    ///
    /// # Errors
    ///
    /// `AllocError` where memory is refused; nothing is then changed.
    #[inline(always)]
    pub fn open(&mut self, element: Element) -> Result<(), AllocError>
        ensures ok { OnOk result (self.new ≡ element ∷ self.old) }
        ensures err { OnErr result (self.new ≡ self.old) }
    {
        if self.items.len() < self.items.capacity() {
            self.items.push_reserved(element);
            return Ok(());
        }
        self.open_apart(element)
    }

    /// One more is open, where room for it is asked for.
    #[cold]
    #[inline(never)]
    fn open_apart(&mut self, element: Element) -> Result<(), AllocError>
        ensures ok { OnOk result (self.new ≡ element ∷ self.old) }
        ensures err { OnErr result (self.new ≡ self.old) }
    {
        self.items.push(element)?;
        Ok(())
    }

    /// None is open any more. The room stays.
    pub fn clear(&mut self)
        ensures { self.new ≡ [] }
    {
        self.items.clear();
    }

    /// The innermost is closed.
    #[inline(always)]
    pub fn close(&mut self)
        ensures { self.new ≡ enclosing self.old }
    {
        self.items.pop();
    }

    /// The innermost goes on in this state.
    pub fn restate(&mut self, state: State)
        ensures { self.new ≡ restated state self.old }
    {
        if let Some(element) = self.items.pop() {
            self.items.push_reserved(Element {
                name: element.name,
                state,
            });
        }
    }

    /// The innermost goes on with the empty form of its grammar.
    pub fn empty(&mut self)
        requires form { HaveForm self.old }
        ensures { self.new ≡ emptied_elements self.old }
    {
        if let Some(element) = self.items.pop() {
            self.items.push_reserved(Element {
                name: element.name,
                state: element.state.emptied(),
            });
        }
    }

    /// The innermost goes to this state of its grammar.
    #[inline(always)]
    pub fn move_to(&mut self, to: u32)
        ensures { self.new ≡ moved_elements to self.old }
    {
        if let Some(element) = self.items.last_mut() {
            element.state.move_to(to);
        }
    }
}

impl State {
    /// The start of the empty form of its grammar: that stands behind the full form, and its own is itself.
    pub fn emptied(self) -> State
        requires form { HasForm self }
        ensures { result ≡ emptied_state self }
    {
        match self {
            State::BuiltIn(room) => State::BuiltIn(room),
            State::Informed { grammar, empty, .. } => State::Informed {
                grammar: if empty { grammar } else { grammar + 1 },
                state: 0,
                empty: true,
            },
        }
    }

    /// Goes to the state of the same grammar with this place: only what changes is written.
    #[inline(always)]
    pub fn move_to(&mut self, to: u32)
        ensures { self.new ≡ moved_state to self.old }
    {
        match self {
            State::BuiltIn(room) => *room = moved_room(*room, to),
            State::Informed { state, .. } => *state = to,
        }
    }
}

/// The state of the same built-in grammar with this place.
#[inline(always)]
fn moved_room(room: Room, to: u32) -> Room
    ensures { result ≡ moved_room to room }
{
    match room {
        Room::StartTag(number) | Room::Content(number) => {
            if to == 0 {
                Room::StartTag(number)
            } else {
                Room::Content(number)
            }
        }
        Room::Fragment => Room::Fragment,
    }
}
