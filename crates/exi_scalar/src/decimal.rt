ghost use Rattle.std.specs.Prelude.{◌≡◌, ◌++◌, OnOk, OnErr};
ghost use Rattle.exi_bits.specs.Bits.{IsAligned};
ghost use Rattle.exi_bits.specs.Unsigned.{Reads, ReadsSome};
ghost use Rattle.exi_bits.specs.Written.{IsWholeBytes};
ghost use Rattle.exi_items.specs.Fronts.{HoldsFront};
ghost use Rattle.exi_names.specs.Seen.{seen};
ghost use Rattle.exi_scalar.specs.Scalars.{IsDecimal, decimal_at, decimal_bits};

use crate::short::read_unsigned;
use crate::signed::{put_bit, read_bit};
use exi_bits::{Align, BitIn, BitOut, Fault};
use exi_names::Val;
use std::alloc::AllocError;

/// Reads a Decimal. After an `Err` the place is anything.
#[tactic(auto, unfolding(crate::specs::Scalars::decimal_at))]
fn decimal_parts(input: &mut BitIn<'_>, align: Align) -> Result<Val, Fault>
    requires aligned { IsAligned align input.old }
    ensures read { ReadsSome seen result input.new (decimal_at align input.old) }
    ensures bytes { input.new.bytes ≡ input.old.bytes }
    ensures aligned { IsAligned align input.new }
{
    let minus = read_bit(input, align)?;
    let whole = read_unsigned(input)?;
    let back = read_unsigned(input)?;
    Ok(Val::Dec { minus, whole, back })
}

/// Reads a Decimal (EXI 1.0, section 7.1.3): a sign, the part before the point, and the digits behind it
/// in reverse, both as Unsigned Integers. It takes no memory. Under [`Align::Bytes`] the place has to be
/// a whole byte.
///
/// # Errors
///
/// The place is then as before.
///
/// - `Short` at the part in which the bits end.
/// - `BadPlace` at the sign, where it is neither 0 nor 1 in a byte-aligned stream.
/// - `TooWide` at the Unsigned Integer that is so.
pub fn read_decimal(input: &mut BitIn<'_>, align: Align) -> Result<Val, Fault>
    requires aligned { IsAligned align input.old }
    ensures read { Reads seen result input.old input.new (decimal_at align input.old) }
    ensures bytes { input.new.bytes ≡ input.old.bytes }
    ensures aligned { IsAligned align input.new }
{
    let start = input.at();
    match decimal_parts(input, align) {
        Ok(value) => Ok(value),
        Err(fault) => {
            input.go_to_bit(start);
            Err(fault)
        }
    }
}

/// Writes a Decimal, as [`read_decimal`] reads it, with the shortest Unsigned Integers. The value has to
/// be a decimal. Under [`Align::Bytes`] there have to be whole bytes of bits.
///
/// # Errors
///
/// Where there is no memory. The bits then end with a front of the spelling, maybe none of it.
pub fn write_decimal(out: &mut BitOut, value: &Val, align: Align) -> Result<(), AllocError>
    requires decimal { IsDecimal (seen value.now) }
    requires aligned { IsWholeBytes align out.old }
    ensures ok { OnOk result (out.new ≡ out.old ++ decimal_bits align (seen value.now)) }
    ensures err { OnErr result (HoldsFront out.old (decimal_bits align (seen value.now)) out.new) }
    ensures aligned { IsWholeBytes align out.new }
{
    match value {
        Val::Dec { minus, whole, back } => {
            put_bit(out, *minus, align)?;
            out.unsigned(*whole)?;
            out.unsigned(*back)
        }
        _ => unreachable!(),
    }
}
