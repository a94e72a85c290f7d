ghost use Rattle.std.specs.Prelude.{◌≡◌, ◌+◌, ◌<◌, ◌^◌};
ghost use Rattle.exi_worker.specs.Hands.{counted, settled_in};

use crate::fate::{Fate, Loss};

/// How many of the hints that a worker claimed in one call came to what.
#[derive(Clone, Copy, Debug, PartialEq, Eq)]
pub struct Worked {
    /// Hints whose outcome was posted.
    pub posted: u32,
    /// Hints whose outcome came too late: the reader had been there.
    pub late: u32,
    /// Hints that were given up since the pool had no page left.
    pub full: u32,
    /// Hints that were given up since memory was refused, or since an event is too long for a tape (2^40 bytes or more).
    pub memory: u32,
    /// Hints that were given up since they lie after the end of the input.
    pub outside: u32,
}

impl Worked {
    /// No hint.
    pub(crate) fn none() -> Worked
        ensures { settled_in result ≡ 0 }
    {
        Worked {
            posted: 0,
            late: 0,
            full: 0,
            memory: 0,
            outside: 0,
        }
    }

    /// One more hint, of this fate.
    pub(crate) fn count(&mut self, fate: Fate)
        requires few { settled_in self.old + 1 < 2 ^ 32 }
        ensures { self.new ≡ counted fate self.old }
    {
        match fate {
            Fate::Posted => self.posted += 1,
            Fate::Late => self.late += 1,
            Fate::GivenUp(Loss::Full) => self.full += 1,
            Fate::GivenUp(Loss::Memory) => self.memory += 1,
            Fate::GivenUp(Loss::Outside) => self.outside += 1,
        }
    }
}
