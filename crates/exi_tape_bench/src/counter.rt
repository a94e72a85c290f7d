// What the tapes are played to.
use exi_names::{EventOut, EventRef, PushStop};

/// Counts events. Nothing more is said of it.
#[derive(Clone, Copy)]
pub struct Counter {
    pub events: u64,
}

impl EventOut for Counter {
    ghost took = { λ _ _ _. Unit {0} };

    ghost broke = { λ _ _ _. ⊥ };

    ghost same = { λ _ _. Unit {0} };

    ghost stops = { λ _. 0 };

    fn see(&mut self, event: &EventRef<'_>) -> Result<(), PushStop> {
        let _event = event;
        self.events = self.events.saturating_add(1);
        Ok(())
    }

    ghost same_now = { λ s. tt };

    ghost same_then = { λ a b c p q. tt };

    ghost none = { λ s. tt };

    ghost more = { λ a b c es fs p q. tt };
}
