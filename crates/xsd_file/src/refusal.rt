ghost use Rattle.std.specs.Prelude.{◌≡◌};
ghost use Rattle.xsd_file.specs.declared.refusal.SchemaHalt.TheVariants as halt;

use exi_bits::Fault;
use std::alloc::AllocError;
use xsd_model::SchemaFault;

/// Why a schema document is refused.
#[derive(Clone, Copy, Debug, PartialEq, Eq)]
pub enum SchemaRefusal {
    /// Its stream has this fault.
    Stream(Fault),
    /// The document that its events say has this fault.
    Document(SchemaFault),
}

/// Why the reading of a schema document stopped.
#[derive(Clone, Copy, Debug, PartialEq, Eq)]
pub enum SchemaHalt {
    /// It is refused.
    Refused(SchemaRefusal),
    /// There was no memory.
    Memory,
}

impl From<AllocError> for SchemaHalt {
    ghost from_gives = { λ _ e. e ≡ halt.Memory };

    fn from(_refused: AllocError) -> SchemaHalt {
        SchemaHalt::Memory
    }
}
