//! A bit, and a sign with a number behind it.

ghost use Rattle.std.specs.Prelude.{◌≡◌, ◌++◌, ◌<◌, ◌^◌, OnOk, OnErr, IfOk};
ghost use Rattle.exi_bits.specs.Bits.{IsAligned, number};
ghost use Rattle.exi_bits.specs.Unsigned.{Reads, ReadsSome};
ghost use Rattle.exi_bits.specs.Written.{IsWholeBytes};
ghost use Rattle.exi_items.specs.Fronts.{HoldsFront};
ghost use Rattle.exi_scalar.specs.Scalars.{bit_at, signed_at, signed_bits, one_if};

use crate::short::read_unsigned;
use exi_bits::{Align, BitIn, BitOut, Fault, Kind};
use std::alloc::AllocError;

/// A bit: whether it is 1.
#[tactic(auto, unfolding(crate::specs::Scalars::bit_at))]
#[inline(always)]
pub fn read_bit(input: &mut BitIn<'_>, align: Align) -> Result<bool, Fault>
    requires aligned { IsAligned align input.old }
    ensures read { Reads (λ x. x) result input.old input.new (bit_at align input.old) }
    ensures bytes { input.new.bytes ≡ input.old.bytes }
    ensures aligned { IsAligned align input.new }
{
    let bit = input.below(2, align, Kind::BadPlace)?;
    Ok(bit == 1)
}

/// A sign and the Unsigned Integer behind it, below 2^127. After an `Err` the place is anything.
#[tactic(auto, unfolding(crate::specs::Scalars::signed_at))]
#[inline(always)]
pub fn read_signed(input: &mut BitIn<'_>, align: Align) -> Result<(bool, u128), Fault>
    requires aligned { IsAligned align input.old }
    ensures read { ReadsSome (λ x. x) result input.new (signed_at align input.old) }
    ensures below { IfOk result (λ n. n.1 < 2 ^ 127) }
    ensures bytes { input.new.bytes ≡ input.old.bytes }
    ensures aligned { IsAligned align input.new }
{
    let minus = read_bit(input, align)?;
    let bit = input.at();
    let size = read_unsigned(input)?;
    if size < 1 << 127 {
        return Ok((minus, size));
    }
    Err(Fault {
        kind: Kind::TooWide,
        bit,
    })
}

/// Adds a bit.
pub fn put_bit(out: &mut BitOut, bit: bool, align: Align) -> Result<(), AllocError>
    requires aligned { IsWholeBytes align out.old }
    ensures ok { OnOk result (out.new ≡ out.old ++ number 1 align (one_if bit)) }
    ensures err { OnErr result (out.new ≡ out.old) }
    ensures aligned { IsWholeBytes align out.new }
{
    out.put(u64::from(bit), 1, align)
}

/// Adds a sign and the Unsigned Integer behind it.
pub fn put_signed(out: &mut BitOut, parts: (bool, u128), align: Align) -> Result<(), AllocError>
    requires aligned { IsWholeBytes align out.old }
    ensures ok { OnOk result (out.new ≡ out.old ++ signed_bits align parts) }
    ensures err { OnErr result (HoldsFront out.old (signed_bits align parts) out.new) }
    ensures aligned { IsWholeBytes align out.new }
{
    put_bit(out, parts.0, align)?;
    out.unsigned(parts.1)
}
