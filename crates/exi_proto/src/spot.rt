//! Where the states of a part of a grammar stand.

ghost use Rattle.std.specs.Prelude.{◌≡◌, ◌<◌, ◌+◌, ◌^◌, Some};

/// Where the states of a part of a grammar stand.
#[derive(Clone, Copy, Debug)]
pub(crate) struct Spot {
    /// The place of its first state.
    pub first: u32,
    /// How many particles stand before its own.
    pub before: u32,
    /// The place of the state to which its ends lead; none where they end the element.
    pub next: Option<u32>,
}

impl Spot {
    /// The spot of the first part of it, which has so many states and is followed by another.
    pub(crate) fn front(self, states: u32) -> Spot
        requires room { self.first + states < 2 ^ 32 }
        ensures { result ≡ record { first = self.first; before = self.before; next = Some (self.first + states) } }
    {
        Spot {
            next: Some(self.first + states),
            ..self
        }
    }

    /// The spot of what stands in it behind a part of so many states and particles.
    pub(crate) fn behind(self, states: u32, particles: u32) -> Spot
        requires states { self.first + states < 2 ^ 32 }
        requires particles { self.before + particles < 2 ^ 32 }
        ensures { result ≡ record { first = self.first + states; before = self.before + particles; next = self.next } }
    {
        Spot {
            first: self.first + states,
            before: self.before + particles,
            ..self
        }
    }

    /// The same, where its ends lead back to its start.
    pub(crate) fn returning(self) -> Spot
        ensures { result ≡ record { first = self.first; before = self.before; next = Some self.first } }
    {
        Spot {
            next: Some(self.first),
            ..self
        }
    }
}
