//! Why a line gives no event.

ghost use Rattle.std.specs.Prelude.{◌≡◌};
ghost use Rattle.exi_evtext.specs.declared.stop.LineStop.TheVariants.{Memory};

use std::alloc::{AllocError, AllocFailed};

/// Why no event was read of a line.
#[derive(Clone, Copy, Debug, PartialEq, Eq)]
pub enum LineStop {
    /// The line is not of the form.
    Form,
    /// Memory was refused.
    Memory,
}

impl From<AllocError> for LineStop {
    ghost from_gives = { λ _ e. e ≡ Memory };

    fn from(_e: AllocError) -> LineStop {
        LineStop::Memory
    }
}

impl<T: Drop> From<AllocFailed<T>> for LineStop {
    ghost from_gives = { λ _ e. e ≡ Memory };

    fn from(_e: AllocFailed<T>) -> LineStop {
        LineStop::Memory
    }
}
