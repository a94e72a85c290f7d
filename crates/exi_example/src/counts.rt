//! What counts events, by their kinds.

ghost use Rattle.exi_example.specs.Counting.{HasCounted, more_counted, none_counted};

use exi_names::{EventOut, EventRef, PushStop};

/// How many events there were of each kind. A count stands still at 2^64 - 1.
#[derive(Clone, Copy, Debug, PartialEq, Eq)]
pub struct Counts {
    /// Elements that begin.
    pub elements: u64,
    /// Attributes.
    pub attributes: u64,
    /// Pieces of character data.
    pub characters: u64,
}

impl EventOut for Counts {
    ghost took = { λ a es b. HasCounted a es b };

    ghost broke = { λ _ _ _. ⊥ };

    ghost same = { λ _ _. Unit {0} };

    ghost stops = { λ _. 0 };

    fn see(&mut self, event: &EventRef<'_>) -> Result<(), PushStop> {
        match event {
            EventRef::Se(_) => self.elements = self.elements.saturating_add(1),
            EventRef::At(_, _) => self.attributes = self.attributes.saturating_add(1),
            EventRef::Ch(_) => self.characters = self.characters.saturating_add(1),
            EventRef::Sd | EventRef::Ed | EventRef::Ee | EventRef::Ns { .. } => {}
            EventRef::Sc { .. } | EventRef::Cm(_) | EventRef::Pi { .. } => {}
            EventRef::Dt { .. } | EventRef::Er(_) => {}
        }
        Ok(())
    }

    ghost same_now = { λ s. tt };

    ghost same_then = { λ a b c p q. tt };

    ghost none = { λ s. none_counted s };

    ghost more = { λ a b c es fs p q. more_counted a b c es fs p q };
}
