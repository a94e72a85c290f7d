ghost use Rattle.std.specs.Prelude.{◌≡◌, ◌<◌, ◌++◌, [], ◌∷◌, length, OnOk, OnErr};
ghost use Rattle.exi_bits.specs.Bits.{number};
ghost use Rattle.exi_bits.specs.Widths.{width_for};
ghost use Rattle.exi_bits.specs.Written.{IsWholeBytes};
ghost use Rattle.exi_gram.specs.Codes.{code_bits};
ghost use Rattle.exi_gram.specs.Laws.{codes};
ghost use Rattle.exi_gram.specs.Switches.{align_of};
ghost use Rattle.exi_gram.specs.Tables.{parts_of};
ghost use Rattle.exi_items.specs.Fronts.{HoldsFront};
ghost use Rattle.exi_builtin.specs.BuiltIn.{left_of, written};
ghost use Rattle.exi_builtin.specs.CodeParts.{PartsFit, part_bits};
ghost use Rattle.exi_builtin.specs.LeastCodes.{IsCodeOf};
ghost use Rattle.exi_builtin.specs.Learning.{behind_learned};

use crate::learnable::Room;
use crate::learned_list::LearnedList;
use crate::reading::{first_count, kept_count, second_count};
use crate::written::as_written;
use exi_bits::{Align, BitOut, bits_for};
use exi_gram::{Code, Options};
use std::alloc::AllocError;

/// Writes a part that has so many values.
#[inline]
fn write_part(out: &mut BitOut, part: u32, count: u32, align: Align) -> Result<(), AllocError>
    requires below { part < count }
    requires aligned { IsWholeBytes align out.old }
    ensures ok { OnOk result (out.new ≡ out.old ++ number (width_for count) align part) }
    ensures err { OnErr result (out.new ≡ out.old) }
    ensures aligned { IsWholeBytes align out.new }
{
    out.put(u64::from(part), bits_for(u64::from(count)), align)
}

/// Writes a code part by part, where each part has so many values.
fn write_parts(
    out: &mut BitOut,
    code: Code,
    values: u32,
    seconds: u32,
    thirds: u32,
    align: Align,
) -> Result<(), AllocError>
    requires fit { PartsFit code values seconds thirds }
    requires aligned { IsWholeBytes align out.old }
    ensures ok { OnOk result (out.new ≡ out.old ++ part_bits align code values seconds thirds) }
    ensures err { OnErr result (HoldsFront out.old (part_bits align code values seconds thirds) out.new) }
    ensures aligned { IsWholeBytes align out.new }
{
    match code {
        Code::One(first) => write_part(out, first, values, align),
        Code::Two(first, second) => {
            write_part(out, first, values, align)?;
            write_part(out, second, seconds, align)
        }
        Code::Three(first, second, third) => {
            write_part(out, first, values, align)?;
            write_part(out, second, seconds, align)?;
            write_part(out, third, thirds, align)
        }
    }
}

/// Writes any code of a state that learned these productions.
fn write_any(
    out: &mut BitOut,
    learned: &LearnedList,
    room: Room,
    code: Code,
    options: &Options,
) -> Result<(), AllocError>
    requires code { IsCodeOf (behind_learned learned.now (left_of options.now (written room))) (parts_of code) }
    requires aligned { IsWholeBytes (align_of options.now) out.old }
    ensures ok { OnOk result (out.new ≡ out.old ++ code_bits (align_of options.now) (codes (behind_learned learned.now (left_of options.now (written room)))) (parts_of code)) }
    ensures err { OnErr result (HoldsFront out.old (code_bits (align_of options.now) (codes (behind_learned learned.now (left_of options.now (written room)))) (parts_of code)) out.new) }
    ensures aligned { IsWholeBytes (align_of options.now) out.new }
{
    let written = as_written(room);
    write_parts(
        out,
        code,
        first_count(learned, room, options),
        second_count(options, &written),
        kept_count(options, written.members),
        options.align(),
    )
}

/// Writes a code of two parts.
#[cold]
#[inline(never)]
fn write_two(
    out: &mut BitOut,
    learned: &LearnedList,
    room: Room,
    first: u32,
    second: u32,
    options: &Options,
) -> Result<(), AllocError>
    requires code { IsCodeOf (behind_learned learned.now (left_of options.now (written room))) (first ∷ second ∷ []) }
    requires aligned { IsWholeBytes (align_of options.now) out.old }
    ensures ok { OnOk result (out.new ≡ out.old ++ code_bits (align_of options.now) (codes (behind_learned learned.now (left_of options.now (written room)))) (first ∷ second ∷ [])) }
    ensures err { OnErr result (HoldsFront out.old (code_bits (align_of options.now) (codes (behind_learned learned.now (left_of options.now (written room)))) (first ∷ second ∷ [])) out.new) }
    ensures aligned { IsWholeBytes (align_of options.now) out.new }
{
    write_any(out, learned, room, Code::Two(first, second), options)
}

/// Writes a code of three parts.
#[cold]
#[inline(never)]
fn write_three(
    out: &mut BitOut,
    learned: &LearnedList,
    room: Room,
    parts: (u32, u32, u32),
    options: &Options,
) -> Result<(), AllocError>
    requires code { IsCodeOf (behind_learned learned.now (left_of options.now (written room))) (parts.0 ∷ parts.1 ∷ parts.2 ∷ []) }
    requires aligned { IsWholeBytes (align_of options.now) out.old }
    ensures ok { OnOk result (out.new ≡ out.old ++ code_bits (align_of options.now) (codes (behind_learned learned.now (left_of options.now (written room)))) (parts.0 ∷ parts.1 ∷ parts.2 ∷ [])) }
    ensures err { OnErr result (HoldsFront out.old (code_bits (align_of options.now) (codes (behind_learned learned.now (left_of options.now (written room)))) (parts.0 ∷ parts.1 ∷ parts.2 ∷ [])) out.new) }
    ensures aligned { IsWholeBytes (align_of options.now) out.new }
{
    let (first, second, third) = parts;
    write_any(
        out,
        learned,
        room,
        Code::Three(first, second, third),
        options,
    )
}

/// Writes a code of a state that learned these productions. Most have one part, for which no others are
/// counted.
#[inline(always)]
pub fn write_behind(
    out: &mut BitOut,
    learned: &LearnedList,
    room: Room,
    code: Code,
    options: &Options,
) -> Result<(), AllocError>
    requires code { IsCodeOf (behind_learned learned.now (left_of options.now (written room))) (parts_of code) }
    requires aligned { IsWholeBytes (align_of options.now) out.old }
    ensures ok { OnOk result (out.new ≡ out.old ++ code_bits (align_of options.now) (codes (behind_learned learned.now (left_of options.now (written room)))) (parts_of code)) }
    ensures err { OnErr result (HoldsFront out.old (code_bits (align_of options.now) (codes (behind_learned learned.now (left_of options.now (written room)))) (parts_of code)) out.new) }
    ensures aligned { IsWholeBytes (align_of options.now) out.new }
{
    match code {
        Code::One(first) => write_part(
            out,
            first,
            first_count(learned, room, options),
            options.align(),
        ),
        Code::Two(first, second) => write_two(out, learned, room, first, second, options),
        Code::Three(first, second, third) => {
            write_three(out, learned, room, (first, second, third), options)
        }
    }
}
