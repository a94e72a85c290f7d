//! Why there is no grammar of a type.

ghost use Rattle.std.specs.Prelude.{◌≡◌};
ghost use Rattle.exi_proto.specs.declared.stop.ProtoStop.TheVariants as stop;

use std::alloc::{AllocError, AllocFailed};
use thiserror::Error;

/// Why there is no grammar of a type.
#[derive(Clone, Copy, Debug, PartialEq, Eq, Error)]
pub enum ProtoStop {
    /// It has too many states.
    #[error("too many states")]
    TooLarge,
    /// There was no memory.
    #[error("out of memory")]
    Memory,
}

impl From<AllocError> for ProtoStop {
    ghost from_gives = { λ _ e. e ≡ stop.Memory };

    fn from(_e: AllocError) -> ProtoStop {
        ProtoStop::Memory
    }
}

impl<T: Drop> From<AllocFailed<T>> for ProtoStop {
    ghost from_gives = { λ _ e. e ≡ stop.Memory };

    fn from(_e: AllocFailed<T>) -> ProtoStop {
        ProtoStop::Memory
    }
}
