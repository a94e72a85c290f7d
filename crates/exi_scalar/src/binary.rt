ghost use Rattle.std.specs.Prelude.{◌≡◌, ◌%◌, ◌++◌, OnOk, OnErr, IfErr};
ghost use Rattle.exi_bits.specs.Bits.{IsAligned};
ghost use Rattle.exi_bits.specs.Unsigned.{Reads, unsigned_at};
ghost use Rattle.exi_bits.specs.Written.{IsWholeBytes};
ghost use Rattle.exi_items.specs.Charges.{Charges, meter_after};
ghost use Rattle.exi_items.specs.Fronts.{HoldsFront};
ghost use Rattle.exi_names.specs.Seen.{seen};
ghost use Rattle.exi_scalar.specs.Scalars.{IsBinary, after_count, binary_at, binary_bits};

use crate::short::long_unsigned;
use exi_bits::{Align, BitIn, BitOut, Fault, Stop};
use exi_items::charge_text;
use exi_meter::Meter;
use exi_names::{Octets, Val};
use std::alloc::{AllocError, Global};

/// The number of octets, which most often takes one octet itself.
#[inline(always)]
fn count_of(input: &mut BitIn<'_>) -> Result<u128, Fault>
    ensures read { Reads (λ x. x) result input.old input.new (unsigned_at input.old) }
    ensures bytes { input.new.bytes ≡ input.old.bytes }
    ensures phase { input.new.place % 8 ≡ input.old.place % 8 }
{
    if let Some(count) = input.one_octet() {
        return Ok(u128::from(count));
    }
    long_unsigned(input)
}

/// Reads a Binary. After an `Err` the place is anything.
#[tactic(auto, unfolding(crate::specs::Scalars::binary_at))]
#[inline(always)]
fn binary(alloc: Global, input: &mut BitIn<'_>, hex: bool, meter: &mut Meter) -> Result<Val, Stop>
    ensures read { Charges seen result input.new meter.new (binary_at hex (record { spot = input.old; meter = meter.old })) }
    ensures meter { meter.new ≡ after_count meter.old (unsigned_at input.old) }
    ensures bytes { input.new.bytes ≡ input.old.bytes }
    ensures phase { input.new.place % 8 ≡ input.old.place % 8 }
{
    let bit = input.at();
    let count = count_of(input)?;
    charge_text(meter, count, bit)?;
    let octets = input.octets(alloc, count)?;
    Ok(Val::Bin {
        hex,
        octets: Octets::from_vec(octets),
    })
}

/// Reads a Binary (EXI 1.0, section 7.1.1): the number of its octets as an Unsigned Integer, which is
/// charged to the meter, and the octets, which are the same in both alignments. Under [`Align::Bytes`]
/// the place has to be a whole byte.
///
/// # Errors
///
/// The place is then as before. Where memory ran out the meter is too; after a fault the charge stays.
///
/// - `Short` and `TooWide` at the number, where it is so.
/// - `TextLimit` at the number, where so many octets would pass the limit; nothing is charged.
/// - `Short` at the octet at which the bits end.
/// - `Memory` where memory is refused.
#[inline(always)]
pub fn read_binary(
    alloc: Global,
    input: &mut BitIn<'_>,
    hex: bool,
    align: Align,
    meter: &mut Meter,
) -> Result<Val, Stop>
    requires aligned { IsAligned align input.old }
    ensures read { Charges seen result input.new meter.new (binary_at hex (record { spot = input.old; meter = meter.old })) }
    ensures place { OnErr result (input.new ≡ input.old) }
    ensures meter { IfErr result (λ stop. meter.new ≡ meter_after stop meter.old (after_count meter.old (unsigned_at input.old))) }
    ensures bytes { input.new.bytes ≡ input.old.bytes }
    ensures aligned { IsAligned align input.new }
{
    let start = input.at();
    let before = *meter;
    match binary(alloc, input, hex, meter) {
        Ok(value) => Ok(value),
        Err(stop) => {
            input.go_to_bit(start);
            if let Stop::Memory = stop {
                *meter = before;
            }
            Err(stop)
        }
    }
}

/// Writes a Binary, as [`read_binary`] reads it, with the shortest Unsigned Integer. The value has to be
/// a binary. Under [`Align::Bytes`] there have to be whole bytes of bits.
///
/// # Errors
///
/// Where there is no memory. The bits then end with a front of the spelling, maybe none of it.
pub fn write_binary(out: &mut BitOut, value: &Val, align: Align) -> Result<(), AllocError>
    requires binary { IsBinary (seen value.now) }
    requires aligned { IsWholeBytes align out.old }
    ensures ok { OnOk result (out.new ≡ out.old ++ binary_bits (seen value.now)) }
    ensures err { OnErr result (HoldsFront out.old (binary_bits (seen value.now)) out.new) }
    ensures aligned { IsWholeBytes align out.new }
{
    match value {
        Val::Bin { hex: _, octets } => {
            let octets = octets.as_slice();
            out.unsigned(octets.len() as u128)?;
            out.octets(octets)
        }
        _ => unreachable!(),
    }
}
