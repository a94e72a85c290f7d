ghost use Rattle.std.specs.Prelude.{◌≡◌, ◌≤◌, IsErrOf};
ghost use Rattle.std.proofs.Common.{refl, ◌∙◌};
ghost use Rattle.exi_pool.specs.Passes.{IsOf};
ghost use Rattle.exi_tape.specs.Taking.{Refuses, Tapes, tapes_more, tapes_none};

use crate::sizes::event_size;
use crate::tape::Tape;
use exi_names::{EventOut, EventRef, PushStop};
use exi_pool::{Pool, PoolPass};
use std::sync::Wait;

/// An event that is spelled by as many bytes is put on no tape.
const TOO_MANY: u64 = 1 << 40;

/// Puts each event on a tape. It stops where the pool has no page left, and at an event that is spelled by 2^40 bytes
/// or more.
#[derive(Drop)]
pub struct TapeOut<'a, R: Wait> {
    /// How the pool is waited for.
    pub rt: &'a R,
    /// Where the events go.
    pub tape: Tape,
    /// Where pages are taken from.
    pub pool: &'a Pool,
    /// What they are taken with.
    pub pass: &'a mut PoolPass,
    /// How often it stopped.
    pub stops: u64,
    ghost of: { IsOf pool.now pass.now },
}

impl<'a, R: Wait> EventOut for TapeOut<'a, R> {
    ghost took = { λ a es b. Tapes a.tape a.pass.now es b.tape b.pass.now };

    ghost broke = { λ a e b. Refuses a.tape a.pass.now e b.tape b.pass.now };

    ghost same = { λ a b. (b.pool ≡ a.pool) × (b.pass.ghost_name ≡ a.pass.ghost_name) };

    ghost stops = { λ a. a.stops };

    fn see(&mut self, event: &EventRef<'_>) -> Result<(), PushStop> {
        let size = event_size(event);
        if size < TOO_MANY {
            if let Ok(()) = self.tape.lay(self.rt, self.pool, self.pass, event, size) {
                return Ok(());
            }
        }
        self.stops = self.stops.saturating_add(1);
        Err(PushStop::Stopped)
    }

    ghost same_now = { λ s. (refl, refl) };

    ghost same_then = { λ a b c p q. (q.0 ∙ p.0, q.1 ∙ p.1) };

    ghost none = { λ s. tapes_none s.tape s.pass.now };

    ghost more = { λ a b c es fs. tapes_more a.tape b.tape c.tape a.pass.now b.pass.now c.pass.now es fs };
}
