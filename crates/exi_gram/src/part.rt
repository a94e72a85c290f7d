ghost use Rattle.std.specs.Prelude.{◌≡◌, ◌<◌, IfOk};
ghost use Rattle.exi_bits.specs.Bits.{IsAligned};
ghost use Rattle.exi_bits.specs.Unsigned.{Reads};
ghost use Rattle.exi_gram.specs.Codes.{part_at};

use exi_bits::{Align, BitIn, Fault, Kind};

/// Takes one part of an event code, which has so many values (EXI 1.0, section 6.2).
///
/// # Errors
///
/// At the first bit of the part: `Short` where the bits end, `NoCode` where the number is not below the count.
#[tactic(auto, unfolding(crate::specs::Codes::part_at))]
#[inline(always)]
pub fn read_part(input: &mut BitIn<'_>, count: u32, align: Align) -> Result<u32, Fault>
    requires aligned { IsAligned align input.old }
    ensures read { Reads (λ x. x) result input.old input.new (part_at count align input.old) }
    ensures below { IfOk result (λ v. v < count) }
    ensures bytes { input.new.bytes ≡ input.old.bytes }
    ensures aligned { IsAligned align input.new }
{
    let value = input.below(u64::from(count), align, Kind::NoCode)?;
    Ok(value as u32)
}
