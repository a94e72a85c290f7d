ghost use Rattle.std.specs.Prelude.{◌≡◌, ◌++◌, OnOk, OnErr};
ghost use Rattle.exi_bits.specs.Bits.{IsAligned};
ghost use Rattle.exi_bits.specs.Unsigned.{Reads};
ghost use Rattle.exi_bits.specs.Written.{IsWholeBytes};
ghost use Rattle.exi_names.specs.Seen.{seen};
ghost use Rattle.exi_scalar.specs.Scalars.{IsBoolean, boolean_at, boolean_bits};

use crate::signed::{put_bit, read_bit};
use exi_bits::{Align, BitIn, BitOut, Fault, Kind};
use exi_names::Val;
use std::alloc::AllocError;

/// Reads a Boolean (EXI 1.0, section 7.1.2): one bit, or two where the datatype has a pattern, which
/// also tell the word from the digit: 0 is `false`, 1 is `0`, 2 is `true`, 3 is `1`. It takes no memory.
/// Under [`Align::Bytes`] the place has to be a whole byte.
///
/// # Errors
///
/// The place is then as before.
///
/// - `Short` where the bits end first.
/// - `BadPlace` where a byte-aligned stream has a greater number than its bits can tell.
#[tactic(auto, unfolding(crate::specs::Scalars::boolean_at, crate::specs::Scalars::pair_at))]
pub fn read_boolean(input: &mut BitIn<'_>, pattern: bool, align: Align) -> Result<Val, Fault>
    requires aligned { IsAligned align input.old }
    ensures read { Reads seen result input.old input.new (boolean_at pattern align input.old) }
    ensures bytes { input.new.bytes ≡ input.old.bytes }
    ensures aligned { IsAligned align input.new }
{
    if !pattern {
        let yes = read_bit(input, align)?;
        return Ok(Val::Bool { yes, digit: false });
    }
    let which = input.below(4, align, Kind::BadPlace)?;
    Ok(Val::Bool {
        yes: which >= 2,
        digit: which % 2 == 1,
    })
}

/// Writes a Boolean, as [`read_boolean`] reads it. The value has to be a boolean, and one by a digit only
/// where the datatype has a pattern. Under [`Align::Bytes`] there have to be whole bytes of bits.
///
/// # Errors
///
/// Where there is no memory. The bits are then as before.
pub fn write_boolean(
    out: &mut BitOut,
    value: &Val,
    pattern: bool,
    align: Align,
) -> Result<(), AllocError>
    requires boolean { IsBoolean pattern (seen value.now) }
    requires aligned { IsWholeBytes align out.old }
    ensures ok { OnOk result (out.new ≡ out.old ++ boolean_bits pattern align (seen value.now)) }
    ensures err { OnErr result (out.new ≡ out.old) }
    ensures aligned { IsWholeBytes align out.new }
{
    match value {
        Val::Bool { yes, digit } => {
            if pattern {
                out.put(2 * u64::from(*yes) + u64::from(*digit), 2, align)
            } else {
                put_bit(out, *yes, align)
            }
        }
        _ => unreachable!(),
    }
}
