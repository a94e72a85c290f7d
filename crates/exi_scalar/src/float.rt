ghost use Rattle.std.specs.Prelude.{◌≡◌, ◌++◌, ◌<◌, ◌^◌, OnOk, OnErr, IfOk};
ghost use Rattle.exi_bits.specs.Bits.{IsAligned};
ghost use Rattle.exi_bits.specs.Unsigned.{Reads, ReadsSome};
ghost use Rattle.exi_bits.specs.Written.{IsWholeBytes};
ghost use Rattle.exi_items.specs.Fronts.{HoldsFront};
ghost use Rattle.exi_names.specs.Seen.{seen};
ghost use Rattle.exi_scalar.specs.Scalars.{IsFloat, float_at, float_bits, float_of, int_of, parts_of_int, signed_bits, small_at};

use crate::signed::{put_signed, read_signed};
use exi_bits::{Align, BitIn, BitOut, Fault, Kind};
use exi_names::Val;
use std::alloc::AllocError;

/// Reads an Integer from -2^`bits` to 2^`bits` - 1. After an `Err` the place is anything.
#[tactic(auto, unfolding(crate::specs::Scalars::small_at))]
#[inline(never)]
fn small(input: &mut BitIn<'_>, bits: u32, align: Align) -> Result<(bool, u128), Fault>
    requires few { bits < 128 }
    requires aligned { IsAligned align input.old }
    ensures read { ReadsSome (λ x. x) result input.new (small_at bits align input.old) }
    ensures below { IfOk result (λ n. n.1 < 2 ^ bits) }
    ensures bytes { input.new.bytes ≡ input.old.bytes }
    ensures aligned { IsAligned align input.new }
{
    let bit = input.at();
    let parts = read_signed(input, align)?;
    if parts.1 < 1 << bits {
        return Ok(parts);
    }
    Err(Fault {
        kind: Kind::BadFloat,
        bit,
    })
}

/// The number of that sign, so far from 0, or if it is negative from -1.
fn int_of(parts: (bool, u128)) -> i64
    requires below { parts.1 < 2 ^ 63 }
    ensures { result ≡ int_of parts }
{
    let (minus, size) = parts;
    if minus { -1 - size as i64 } else { size as i64 }
}

/// The sign, and how far the number is from 0, or if it is negative from -1.
fn parts_of(value: i64) -> (bool, u128)
    ensures { result ≡ parts_of_int value }
{
    if value < 0 {
        (true, (-1 - value) as u128)
    } else {
        (false, value as u128)
    }
}

/// The value of a mantissa and an exponent.
fn float_of(mantissa: (bool, u128), exponent: (bool, u128)) -> Val
    requires mantissa { mantissa.1 < 2 ^ 63 }
    requires exponent { exponent.1 < 2 ^ 14 }
    ensures { seen result ≡ float_of mantissa exponent }
{
    let is_least = exponent.0 && exponent.1 == 16383;
    let is_one = mantissa.1 == 1 - u128::from(mantissa.0);
    let kept = if is_least && !is_one {
        0
    } else {
        int_of(mantissa)
    };
    Val::Flo {
        mantissa: kept,
        exponent: int_of(exponent) as i16,
    }
}

/// Reads a Float. After an `Err` the place is anything.
#[tactic(auto, unfolding(crate::specs::Scalars::float_at))]
fn float_parts(input: &mut BitIn<'_>, align: Align) -> Result<Val, Fault>
    requires aligned { IsAligned align input.old }
    ensures read { ReadsSome seen result input.new (float_at align input.old) }
    ensures bytes { input.new.bytes ≡ input.old.bytes }
    ensures aligned { IsAligned align input.new }
{
    let mantissa = small(input, 63, align)?;
    let exponent = small(input, 14, align)?;
    Ok(float_of(mantissa, exponent))
}

/// Reads a Float (EXI 1.0, section 7.1.4): a mantissa and an exponent of ten, both Integers. With the
/// exponent -16384 the mantissa 1 is infinity, -1 is minus infinity, and any other one is not a number,
/// which is kept with the mantissa 0. It takes no memory. Under [`Align::Bytes`] the place has to be a
/// whole byte.
///
/// # Errors
///
/// The place is then as before. The first of:
///
/// - The faults of the mantissa as an Integer, as [`read_integer`](crate::read_integer) tells them.
/// - `BadFloat` at the mantissa's sign, where it is not within 64 bits with its sign.
/// - The faults of the exponent as an Integer.
/// - `BadFloat` at the exponent's sign, where it is not from -16384 to 16383.
pub fn read_float(input: &mut BitIn<'_>, align: Align) -> Result<Val, Fault>
    requires aligned { IsAligned align input.old }
    ensures read { Reads seen result input.old input.new (float_at align input.old) }
    ensures bytes { input.new.bytes ≡ input.old.bytes }
    ensures aligned { IsAligned align input.new }
{
    let start = input.at();
    match float_parts(input, align) {
        Ok(value) => Ok(value),
        Err(fault) => {
            input.go_to_bit(start);
            Err(fault)
        }
    }
}

/// Adds the mantissa and the exponent.
fn put_float(
    out: &mut BitOut,
    mantissa: (bool, u128),
    exponent: (bool, u128),
    align: Align,
) -> Result<(), AllocError>
    requires aligned { IsWholeBytes align out.old }
    ensures ok { OnOk result (out.new ≡ out.old ++ signed_bits align mantissa ++ signed_bits align exponent) }
    ensures err { OnErr result (HoldsFront out.old (signed_bits align mantissa ++ signed_bits align exponent) out.new) }
    ensures aligned { IsWholeBytes align out.new }
{
    put_signed(out, mantissa, align)?;
    put_signed(out, exponent, align)
}

/// Writes a Float, as [`read_float`] reads it, with the shortest Unsigned Integers. The value has to be a
/// float with an exponent from -16384 to 16383, and at -16384 the mantissa -1, 0 or 1. Under
/// [`Align::Bytes`] there have to be whole bytes of bits.
///
/// # Errors
///
/// Where there is no memory. The bits then end with a front of the spelling, maybe none of it.
pub fn write_float(out: &mut BitOut, value: &Val, align: Align) -> Result<(), AllocError>
    requires float { IsFloat (seen value.now) }
    requires aligned { IsWholeBytes align out.old }
    ensures ok { OnOk result (out.new ≡ out.old ++ float_bits align (seen value.now)) }
    ensures err { OnErr result (HoldsFront out.old (float_bits align (seen value.now)) out.new) }
    ensures aligned { IsWholeBytes align out.new }
{
    match value {
        Val::Flo { mantissa, exponent } => {
            let exponent = parts_of(i64::from(*exponent));
            put_float(out, parts_of(*mantissa), exponent, align)
        }
        _ => unreachable!(),
    }
}
