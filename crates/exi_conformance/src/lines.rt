//! Events on one line.

use exi_evtext::push_event;
use exi_names::{EventOut, EventRef, PushStop};
use std::alloc::AllocError;

/// Takes events as their texts, ` / ` behind each. It never stops.
#[derive(Drop)]
pub struct Lines {
    /// The texts so far.
    pub text: String,
}

/// An event's text, and ` / `.
fn put(text: &mut String, event: &EventRef<'_>) -> Result<(), AllocError> {
    push_event(text, event)?;
    text.pop();
    text.push_str(" / ")
}

impl EventOut for Lines {
    ghost took = { λ _ _ _. Unit {0} };

    ghost broke = { λ _ _ _. ⊥ };

    ghost same = { λ _ _. Unit {0} };

    ghost stops = { λ _. 0 };

    fn see(&mut self, event: &EventRef<'_>) -> Result<(), PushStop> {
        match put(&mut self.text, event) {
            Ok(()) => Ok(()),
            Err(AllocError) => Err(PushStop::Memory),
        }
    }

    ghost same_now = { λ s. tt };

    ghost same_then = { λ a b c p q. tt };

    ghost none = { λ s. tt };

    ghost more = { λ a b c es fs p q. tt };
}
