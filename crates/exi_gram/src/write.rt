ghost use Rattle.std.specs.Prelude.{◌≡◌, ◌<◌, ◌≤◌, ◌++◌, ◌^◌, length, OnOk, OnErr};
ghost use Rattle.exi_bits.specs.Bits.{number};
ghost use Rattle.exi_bits.specs.Widths.{width_for};
ghost use Rattle.exi_bits.specs.Written.{IsWholeBytes};
ghost use Rattle.exi_items.specs.Fronts.{HoldsFront};
ghost use Rattle.exi_gram.specs.Tables.{CodeFits, kept_bits, most_productions};

use crate::code::Code;
use crate::second::{SecondPart, values_of_first};
use exi_bits::{Align, BitOut, bits_for};
use std::alloc::AllocError;

/// Writes a part that has so many values.
fn write_part(out: &mut BitOut, part: u32, count: u32, align: Align) -> Result<(), AllocError>
    requires below { part < count }
    requires aligned { IsWholeBytes align out.old }
    ensures ok { OnOk result (out.new ≡ out.old ++ number (width_for count) align part) }
    ensures err { OnErr result (out.new ≡ out.old) }
    ensures aligned { IsWholeBytes align out.new }
{
    out.put(u64::from(part), bits_for(u64::from(count)), align)
}

/// Writes a code part by part.
pub fn write_kept(
    out: &mut BitOut,
    code: Code,
    firsts: u32,
    seconds: &[SecondPart],
    align: Align,
) -> Result<(), AllocError>
    requires few_firsts { firsts ≤ most_productions }
    requires few { length seconds.now ≤ most_productions }
    requires fits { CodeFits firsts seconds.now code }
    requires aligned { IsWholeBytes align out.old }
    ensures ok { OnOk result (out.new ≡ out.old ++ kept_bits align firsts seconds.now code) }
    ensures err { OnErr result (HoldsFront out.old (kept_bits align firsts seconds.now code) out.new) }
    ensures aligned { IsWholeBytes align out.new }
{
    let values = values_of_first(firsts, seconds);
    let second_values = seconds.len() as u32;
    match code {
        Code::One(first) => write_part(out, first, values, align),
        Code::Two(first, second) => {
            write_part(out, first, values, align)?;
            write_part(out, second, second_values, align)
        }
        Code::Three(first, second, third) => {
            write_part(out, first, values, align)?;
            write_part(out, second, second_values, align)?;
            write_part(out, third, seconds[second as usize].count, align)
        }
    }
}
