ghost use Rattle.std.specs.Prelude.{◌≡◌};
ghost use Rattle.exi_normal.specs.declared.stop.NormalStop.TheVariants as stop;

use std::alloc::{AllocError, AllocFailed};
use thiserror::Error;

/// Why there is no normal grammar.
#[derive(Clone, Copy, Debug, PartialEq, Eq, Error)]
pub enum NormalStop {
    /// It has too many states.
    #[error("too many states")]
    TooLarge,
    /// Steps of one state that read the same open different grammars.
    #[error("elements of one name open different grammars")]
    Differ,
    /// There was no memory.
    #[error("out of memory")]
    Memory,
}

impl From<AllocError> for NormalStop {
    ghost from_gives = { λ _ e. e ≡ stop.Memory };

    fn from(_e: AllocError) -> NormalStop {
        NormalStop::Memory
    }
}

impl<T: Drop> From<AllocFailed<T>> for NormalStop {
    ghost from_gives = { λ _ e. e ≡ stop.Memory };

    fn from(_e: AllocFailed<T>) -> NormalStop {
        NormalStop::Memory
    }
}
