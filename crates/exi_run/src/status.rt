ghost use Rattle.std.specs.Prelude.{◌≡◌};
ghost use Rattle.exi_run.specs.Statuses.{number_of};

/// How a command ended. The numbers are those with which the program ends.
#[derive(Clone, Copy, Debug, PartialEq, Eq)]
pub enum Status {
    /// 0: the stream was read to its end.
    Ok,
    /// 1: the stream has a fault.
    Fault,
    /// 2: the words are not of a command's form.
    Usage,
    /// 3: the schema document is refused.
    Schema,
    /// 4: a file could not be read.
    ReadFault,
    /// 5: the output could not be written.
    WriteFault,
    /// 6: there was no memory.
    NoMemory,
    /// 7: the event text has no reading, or the events are not derived or pass a limit.
    Events,
    /// 8: the hints have no reading.
    Hints,
    /// 9: a file is longer than 64 MiB.
    TooLong,
}

impl Status {
    /// The number with which the program ends, from 0 to 9.
    pub fn number(self) -> u8
        ensures { result ≡ number_of self }
    {
        match self {
            Status::Ok => 0,
            Status::Fault => 1,
            Status::Usage => 2,
            Status::Schema => 3,
            Status::ReadFault => 4,
            Status::WriteFault => 5,
            Status::NoMemory => 6,
            Status::Events => 7,
            Status::Hints => 8,
            Status::TooLong => 9,
        }
    }
}
