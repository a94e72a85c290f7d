ghost use Rattle.std.specs.Prelude.{◌≡◌};
ghost use Rattle.exi_toll.specs.declared.stop.PutStop.TheVariants.{Memory};

use exi_bits::Kind;
use std::alloc::AllocError;
use thiserror::Error;

/// Why an event was not written.
#[derive(Clone, Copy, Debug, PartialEq, Eq, Error)]
pub enum PutStop {
    /// No production stands for the event, or one of its texts or values has no spelling.
    #[error("the grammar does not derive the event")]
    NotDerived,
    /// The event passes a limit: of events, text or depth.
    #[error("the event passes a limit")]
    Limit(Kind),
    /// Memory was refused.
    #[error("out of memory")]
    Memory,
}

impl From<AllocError> for PutStop {
    ghost from_gives = { λ _ e. e ≡ Memory };

    fn from(_e: AllocError) -> PutStop {
        PutStop::Memory
    }
}
