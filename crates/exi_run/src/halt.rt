ghost use Rattle.std.specs.Prelude.{◌≡◌};
ghost use Rattle.exi_run.specs.Refusals.{refusal_line, refusal_status};
ghost use Rattle.exi_run.specs.declared.halt.Halt.TheVariants.{Memory};
ghost use Rattle.exi_run.specs.Stops.{halt_at, halt_of, halt_by};

use crate::status::Status;
use crate::unwritten::Unwritten;
use exi_names::TextStop;
use exi_ports::SinkStop;
use exi_processing::ReadStop;
use std::alloc::AllocError;
use xsd_file::SchemaRefusal;

/// What a file is for.
#[derive(Clone, Copy, Debug, PartialEq, Eq)]
pub enum Role {
    /// The schema document.
    Schema,
    /// The hints at where fragments begin.
    Hints,
    /// The stream, or the event text.
    Input,
}

impl Role {
    /// The line that refuses a file that is too long.
    pub(crate) fn too_long(self) -> &'static [u8]
        ensures { result.now ≡ refusal_line (Refusal.TooLong self) }
    {
        match self {
            Role::Schema => b"too long schema\n",
            Role::Hints => b"too long hints\n",
            Role::Input => b"too long input\n",
        }
    }
}

/// Why a command is refused. It has a line of its own, and puts nothing else.
#[derive(Clone, Copy, Debug, PartialEq, Eq)]
pub enum Refusal {
    /// The words are not of a command's form.
    Usage,
    /// A file could not be read.
    ReadFailed,
    /// A file is longer than 64 MiB.
    TooLong(Role),
    /// The event text is not written.
    Events(Unwritten),
    /// The schema document is refused.
    Schema(SchemaRefusal),
}

impl Refusal {
    /// The status behind its line.
    pub(crate) fn status(self) -> Status
        ensures { result ≡ refusal_status self }
    {
        match self {
            Refusal::Usage => Status::Usage,
            Refusal::ReadFailed => Status::ReadFault,
            Refusal::TooLong(_) => Status::TooLong,
            Refusal::Events(_) => Status::Events,
            Refusal::Schema(_) => Status::Schema,
        }
    }
}

/// Why a command stopped before its last line.
#[derive(Clone, Copy, Debug, PartialEq, Eq)]
pub(crate) enum Halt {
    /// It is refused, and nothing was put.
    Refused(Refusal),
    /// The output could not be written.
    Write,
    /// There was no memory.
    Memory,
}

impl From<AllocError> for Halt {
    ghost from_gives = { λ _ e. e ≡ Memory };

    fn from(_refused: AllocError) -> Halt {
        Halt::Memory
    }
}

impl From<SinkStop> for Halt {
    ghost from_gives = { λ s e. e ≡ halt_of s };

    fn from(stop: SinkStop) -> Halt {
        match stop {
            SinkStop::Failed => Halt::Write,
            SinkStop::Memory => Halt::Memory,
        }
    }
}

impl From<ReadStop> for Halt {
    ghost from_gives = { λ s e. e ≡ halt_by s };

    fn from(stop: ReadStop) -> Halt {
        match stop {
            ReadStop::Stopped => Halt::Write,
            ReadStop::Memory => Halt::Memory,
        }
    }
}

impl From<TextStop> for Halt {
    ghost from_gives = { λ s e. e ≡ halt_at s };

    fn from(stop: TextStop) -> Halt {
        match stop {
            TextStop::Syntax(line) => Halt::Refused(Refusal::Events(Unwritten::Syntax(line))),
            TextStop::Memory => Halt::Memory,
        }
    }
}
