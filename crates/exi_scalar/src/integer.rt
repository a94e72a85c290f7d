ghost use Rattle.std.specs.Prelude.{◌≡◌, ◌++◌, ◌<◌, ◌^◌, OnOk, OnErr};
ghost use Rattle.exi_bits.specs.Bits.{IsAligned};
ghost use Rattle.exi_bits.specs.Unsigned.{Reads, ReadsSome};
ghost use Rattle.exi_bits.specs.Written.{IsWholeBytes};
ghost use Rattle.exi_items.specs.Fronts.{HoldsFront};
ghost use Rattle.exi_scalar.specs.Scalars.{IsInteger, integer_at, integer_bits, parts_of, whole_of};

use crate::signed::{put_signed, read_signed};
use exi_bits::{Align, BitIn, BitOut, Fault};
use exi_names::Whole;
use std::alloc::AllocError;

/// The number of that sign, so far from 0, or if it is negative from -1.
#[inline(always)]
fn whole_of(parts: (bool, u128)) -> Whole
    requires below { parts.1 < 2 ^ 127 }
    ensures { result ≡ whole_of parts }
{
    let (minus, size) = parts;
    if minus {
        Whole::new(true, size + 1)
    } else {
        Whole::new(false, size)
    }
}

/// Reads an Integer. After an `Err` the place is anything.
#[tactic(auto, unfolding(crate::specs::Scalars::integer_at))]
#[inline(always)]
fn integer(input: &mut BitIn<'_>, align: Align) -> Result<Whole, Fault>
    requires aligned { IsAligned align input.old }
    ensures read { ReadsSome (λ x. x) result input.new (integer_at align input.old) }
    ensures bytes { input.new.bytes ≡ input.old.bytes }
    ensures aligned { IsAligned align input.new }
{
    let parts = read_signed(input, align)?;
    Ok(whole_of(parts))
}

/// Reads an Integer from -2^127 to 2^127 - 1 (EXI 1.0, section 7.1.5): a sign, and an Unsigned Integer,
/// which is the number's magnitude, or one less if the number is negative. It takes no memory. Under
/// [`Align::Bytes`] the place has to be a whole byte.
///
/// # Errors
///
/// The place is then as before.
///
/// - `Short` at the sign or the Unsigned Integer, where the bits end in it.
/// - `BadPlace` at the sign, where it is neither 0 nor 1 in a byte-aligned stream.
/// - `TooWide` at the Unsigned Integer, where it is so or the number is out of range.
#[inline(always)]
pub fn read_integer(input: &mut BitIn<'_>, align: Align) -> Result<Whole, Fault>
    requires aligned { IsAligned align input.old }
    ensures read { Reads (λ x. x) result input.old input.new (integer_at align input.old) }
    ensures bytes { input.new.bytes ≡ input.old.bytes }
    ensures aligned { IsAligned align input.new }
{
    let start = input.at();
    match integer(input, align) {
        Ok(whole) => Ok(whole),
        Err(fault) => {
            input.go_to_bit(start);
            Err(fault)
        }
    }
}

/// Writes an Integer from -2^127 to 2^127 - 1, as [`read_integer`] reads it, with the shortest Unsigned
/// Integer. Under [`Align::Bytes`] there have to be whole bytes of bits.
///
/// # Errors
///
/// Where there is no memory. The bits then end with a front of the spelling, maybe none of it.
pub fn write_integer(out: &mut BitOut, value: Whole, align: Align) -> Result<(), AllocError>
    requires range { IsInteger value }
    requires aligned { IsWholeBytes align out.old }
    ensures ok { OnOk result (out.new ≡ out.old ++ integer_bits align value) }
    ensures err { OnErr result (HoldsFront out.old (integer_bits align value) out.new) }
    ensures aligned { IsWholeBytes align out.new }
{
    let size = if value.minus {
        value.size - 1
    } else {
        value.size
    };
    put_signed(out, (value.minus, size), align)
}
