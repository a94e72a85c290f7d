ghost use Rattle.std.specs.Prelude.{◌≡◌};
ghost use Rattle.exi_options.specs.Reading.{untold};

use bitflags::Flags;
use exi_gram::{OptionFlags, Options, SchemaWord};

/// What an options document tells.
#[derive(Debug, Drop)]
pub struct Told {
    /// The options; what the document leaves out is as the defaults have it (EXI 1.0, section 5.4).
    pub options: Options,
    /// The bit of the code that opened schemaId, counted from the head of the stream; none where it was not opened.
    pub schema_bit: Option<u64>,
}

/// The size of blocks where none is told.
pub const DEFAULT_BLOCK: u128 = 1_000_000;

impl Told {
    /// Nothing: the defaults.
    pub fn nothing() -> Told
        ensures { result ≡ untold }
    {
        Told {
            options: Options {
                flags: OptionFlags::from_bits_retain(0),
                schema: SchemaWord::Absent,
                block: DEFAULT_BLOCK,
                most: None,
                capacity: None,
            },
            schema_bit: None,
        }
    }
}
