ghost use Rattle.std.specs.Prelude.{◌≡◌};
ghost use Rattle.exi_pattern.specs.declared.stop.Stop.TheVariants as stop;

use std::alloc::{AllocError, AllocFailed};

/// The pattern is refused: so many of its characters are left from the refused one on.
#[derive(Clone, Copy, Debug)]
pub(crate) struct Left(pub(crate) usize);

/// Why the reading of a pattern stops.
#[derive(Debug, Drop)]
pub(crate) enum Stop {
    /// It is refused.
    Refused(Left),
    /// There was no memory.
    Memory,
}

impl From<AllocError> for Stop {
    ghost from_gives = { λ _ e. e ≡ stop.Memory };

    fn from(_e: AllocError) -> Stop {
        Stop::Memory
    }
}

impl From<Left> for Stop {
    ghost from_gives = { λ left e. e ≡ stop.Refused left };

    fn from(left: Left) -> Stop {
        Stop::Refused(left)
    }
}
