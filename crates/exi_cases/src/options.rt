//! Options, as a case tells them.

ghost use Rattle.std.specs.Prelude.{◌≡◌, IfSome, false};
ghost use Rattle.exi_gram.specs.Switches.{conflicts};

use bitflags::Flags;
use exi_gram::{OptionFlags, Options, SchemaWord};

/// The default options with these flags, unless they conflict.
pub fn options_of(flags: &str) -> Option<Options>
    ensures { IfSome result (λ o. conflicts o ≡ false) }
{
    let Ok(bits) = flags.parse::<u8>() else {
        return None;
    };
    let options = Options {
        flags: OptionFlags::from_bits_retain(bits),
        schema: SchemaWord::Absent,
        block: 1_000_000,
        most: None,
        capacity: None,
    };
    if options.conflicts() {
        return None;
    }
    Some(options)
}
