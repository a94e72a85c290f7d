ghost use Rattle.std.specs.Prelude.{◌≡◌};
ghost use Rattle.exi_processing.specs.Handing.{push_halt, stop_halt};
ghost use Rattle.exi_processing.specs.declared.halt.Halt.TheVariants as Halt;
ghost use Rattle.exi_processing.specs.declared.halt.Halt.TheVariants.{Memory};

use exi_bits::{Fault, Stop};
use exi_names::PushStop;
use std::alloc::AllocError;

/// Why a turn gave no step.
#[derive(Debug, Drop)]
pub enum Halt {
    /// The stream is wrong.
    Fault(Fault),
    /// Memory was refused.
    Memory,
    /// What takes the events stopped.
    Stopped,
}

impl From<AllocError> for Halt {
    ghost from_gives = { λ _ e. e ≡ Memory };

    fn from(_e: AllocError) -> Halt {
        Halt::Memory
    }
}

impl From<Stop> for Halt {
    ghost from_gives = { λ s e. e ≡ stop_halt s };

    fn from(stop: Stop) -> Halt {
        match stop {
            Stop::Fault(fault) => Halt::Fault(fault),
            Stop::Memory => Halt::Memory,
        }
    }
}

impl From<Fault> for Halt {
    ghost from_gives = { λ f e. e ≡ Halt.Fault f };

    fn from(fault: Fault) -> Halt {
        Halt::Fault(fault)
    }
}

impl From<PushStop> for Halt {
    ghost from_gives = { λ p e. e ≡ push_halt p };

    fn from(stop: PushStop) -> Halt {
        match stop {
            PushStop::Memory => Halt::Memory,
            PushStop::Stopped => Halt::Stopped,
        }
    }
}
