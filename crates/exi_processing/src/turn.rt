ghost use Rattle.std.specs.Prelude.{◌≡◌};
ghost use Rattle.exi_processing.specs.declared.turn.ReadStop.TheVariants.{Memory};

use crate::end::End;
use exi_bits::Fault;
use std::alloc::AllocError;
use thiserror::Error;

/// What a turn of reading came to.
#[derive(Debug, Drop)]
pub enum Turn {
    /// Reading goes on.
    Went,
    /// A self-contained fragment begins at this byte, counted from the head of the input. It is to be
    /// entered or spliced.
    AtFragment(u64),
    /// Reading has ended.
    Ended(End),
}

/// What a turn of reading came to, where its end is still to be told.
#[derive(Clone, Copy, Debug)]
pub enum Came {
    /// Reading goes on.
    On,
    /// A self-contained fragment begins at this byte.
    AtFragment(u64),
    /// All is read.
    Over,
    /// The stream is wrong.
    Failed(Fault),
}

/// Why reading stopped.
#[derive(Clone, Copy, Debug, PartialEq, Eq, Error)]
pub enum ReadStop {
    /// Memory was refused.
    #[error("out of memory")]
    Memory,
    /// What takes the events stopped.
    #[error("the events are taken no further")]
    Stopped,
}

impl From<AllocError> for ReadStop {
    ghost from_gives = { λ _ e. e ≡ Memory };

    fn from(_e: AllocError) -> ReadStop {
        ReadStop::Memory
    }
}
