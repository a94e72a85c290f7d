ghost use Rattle.std.specs.Prelude.{◌≡◌, ◌++◌, [], ◌∷◌, length, map, OnOk, OnErr};
ghost use Rattle.exi_names.specs.Events.{happens};
ghost use Rattle.exi_names.specs.Lists.{events_of, takes_none, takes_more};

use crate::event::Event;
use crate::event_out::EventOut;
use crate::event_ref::EventRef;
use crate::stops::PushStop;
use std::alloc::{AllocError, Global};

/// Events in memory, in order. It takes each event and never stops.
#[derive(Debug, Drop)]
pub struct EventList {
    items: Vec<Event>,
}

impl EventList {
    /// No events.
    pub fn new(alloc: Global) -> EventList
        ensures { events_of result ≡ [] }
    {
        EventList {
            items: Vec::new(alloc),
        }
    }

    /// Puts an event at the end.
    ///
    /// # Errors
    ///
    /// `AllocError` where memory is refused; the list is then unchanged.
    pub fn add(&mut self, event: Event) -> Result<(), AllocError>
        ensures ok { OnOk result (events_of self.new ≡ events_of self.old ++ happens event ∷ []) }
        ensures err { OnErr result (events_of self.new ≡ events_of self.old) }
    {
        self.items.push(event)?;
        Ok(())
    }

    /// How many events there are.
    pub fn len(&self) -> usize
        ensures { result ≡ length (events_of self.now) }
    {
        self.items.len()
    }

    /// The events.
    pub fn as_slice(&self) -> &[Event]
        ensures { map happens result.now ≡ events_of self.now }
    {
        self.items.as_slice()
    }

    /// The events as a vector, in the same memory.
    pub fn into_vec(self) -> Vec<Event>
        ensures { map happens result.items ≡ events_of self }
    {
        self.items
    }
}

impl EventOut for EventList {
    ghost took = { λ a es b. events_of b ≡ events_of a ++ es };

    ghost broke = { λ _ _ _. ⊥ };

    ghost same = { λ _ _. Unit {0} };

    ghost stops = { λ _. 0 };

    fn see(&mut self, event: &EventRef<'_>) -> Result<(), PushStop> {
        match event.copy(*self.items.allocator()) {
            Ok(copy) => self.push(copy),
            Err(AllocError) => Err(PushStop::Memory),
        }
    }

    fn push(&mut self, event: Event) -> Result<(), PushStop> {
        match self.add(event) {
            Ok(()) => Ok(()),
            Err(AllocError) => Err(PushStop::Memory),
        }
    }

    ghost same_now = { λ s. tt };

    ghost same_then = { λ a b c p q. tt };

    ghost none = { λ s. takes_none (events_of s) };

    ghost more = { λ a b c es fs. takes_more (events_of a) (events_of b) (events_of c) es fs };
}
