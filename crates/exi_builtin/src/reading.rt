ghost use Rattle.std.specs.Prelude.{◌≡◌, ◌≤◌, ◌+◌, ◌++◌, filter, length, slice_get};
ghost use Rattle.exi_bits.specs.Bits.{IsAligned};
ghost use Rattle.exi_bits.specs.Unsigned.{ReadsSome};
ghost use Rattle.exi_gram.specs.Codes.{code_at, kept_seconds, longer, member_at, second_at};
ghost use Rattle.exi_gram.specs.Switches.{align_of};
ghost use Rattle.exi_builtin.specs.BuiltIn.{is_kept, left_of, written};
ghost use Rattle.exi_builtin.specs.Layout.{laid_seconds};
ghost use Rattle.exi_builtin.specs.Learning.{behind_learned};

use crate::learnable::{Learnable, Room};
use crate::learned_list::LearnedList;
use crate::written::{Written, as_written, firsts_of, has_longer, is_kept, written_at};
use exi_bits::{BitIn, Fault};
use exi_gram::{Options, read_part};

/// How many of the productions the options leave.
pub fn kept_count(options: &Options, list: &[Learnable]) -> u32
    requires { length list.now ≤ 8 }
    ensures count { result ≡ length (filter (is_kept options.now) list.now) }
    ensures few { result ≤ 8 }
{
    list.iter()
        .filter(|production| is_kept(options, **production))
        .count() as u32
}

/// The production that has this place among those that the options leave.
fn kept_at(options: &Options, list: &[Learnable], place: u32) -> Option<Learnable>
    ensures { result ≡ slice_get (filter (is_kept options.now) list.now) place }
{
    list.iter()
        .copied()
        .filter(|production| is_kept(options, *production))
        .nth(place as usize)
}

/// How many second parts the options leave.
pub fn second_count(options: &Options, written: &Written) -> u32
    requires singles { length written.now.singles.now ≤ 8 }
    requires members { length written.now.members.now ≤ 8 }
    ensures { result ≡ length (kept_seconds (is_kept options.now)
        (laid_seconds written.now.singles.now written.now.members.now)) }
{
    let singles = kept_count(options, written.singles);
    if kept_count(options, written.members) > 0 {
        return singles + 1;
    }
    singles
}

/// Reads the third part of a code.
#[tactic(auto, unfolding(exi_gram::specs::Codes::member_at))]
fn read_member(
    input: &mut BitIn<'_>,
    members: &[Learnable],
    options: &Options,
) -> Result<Learnable, Fault>
    requires aligned { IsAligned (align_of options.now) input.old }
    requires few { length members.now ≤ 8 }
    ensures read { ReadsSome (λ x. x) result input.new
        (member_at (align_of options.now) (filter (is_kept options.now) members.now) input.old) }
    ensures bytes { input.new.bytes ≡ input.old.bytes }
    ensures aligned { IsAligned (align_of options.now) input.new }
{
    let third = read_part(input, kept_count(options, members), options.align())?;
    Ok(kept_at(options, members, third).unwrap())
}

/// Reads the rest of a code of more parts than one. Few codes have more, so its slices stand apart from the
/// others' way.
///
/// # Errors
///
/// At the first bit of a part: `Short` where the bits end, `NoCode` where no production has it.
#[cold]
#[inline(never)]
fn read_longer(input: &mut BitIn<'_>, room: Room, options: &Options) -> Result<Learnable, Fault>
    requires aligned { IsAligned (align_of options.now) input.old }
    ensures read { ReadsSome (λ x. x) result input.new (second_at (align_of options.now)
        (kept_seconds (is_kept options.now) (written room).seconds) input.old) }
    ensures bytes { input.new.bytes ≡ input.old.bytes }
    ensures aligned { IsAligned (align_of options.now) input.new }
{
    let written = as_written(room);
    let second = read_part(input, second_count(options, &written), options.align())?;
    match kept_at(options, written.singles, second) {
        Some(production) => Ok(production),
        None => read_member(input, written.members, options),
    }
}

/// [`read_longer`], whose answer in memory is met on its way alone.
#[inline(always)]
fn read_apart(input: &mut BitIn<'_>, room: Room, options: &Options) -> Result<Learnable, Fault>
    requires aligned { IsAligned (align_of options.now) input.old }
    ensures read { ReadsSome (λ x. x) result input.new (second_at (align_of options.now)
        (kept_seconds (is_kept options.now) (written room).seconds) input.old) }
    ensures bytes { input.new.bytes ≡ input.old.bytes }
    ensures aligned { IsAligned (align_of options.now) input.new }
{
    match read_longer(input, room, options) {
        Ok(production) => Ok(production),
        Err(fault) => Err(fault),
    }
}

/// The production of a code of one part.
#[inline(always)]
fn first_at(learned: &LearnedList, room: Room, first: u32) -> Option<Learnable>
    ensures { result ≡ slice_get (learned.now ++ (written room).firsts) first }
{
    let count = learned.len();
    if first < count {
        return Some(learned.learned_at(first));
    }
    written_at(room, first - count)
}

/// How many values the first part of a code has.
#[inline(always)]
pub fn first_count(learned: &LearnedList, room: Room, options: &Options) -> u32
    ensures { result ≡ length (learned.now ++ (written room).firsts)
        + longer (kept_seconds (is_kept options.now) (written room).seconds) }
{
    let firsts = learned.len() + firsts_of(room).len() as u32;
    if has_longer(options, room) {
        return firsts + 1;
    }
    firsts
}

/// Reads a code of a state that learned these productions. The place is anything after an `Err`.
///
/// # Errors
///
/// At the first bit of a part: `Short` where the bits end, `NoCode` where no production has it.
#[inline(always)]
pub fn read_behind(
    input: &mut BitIn<'_>,
    learned: &LearnedList,
    room: Room,
    options: &Options,
) -> Result<Learnable, Fault>
    requires aligned { IsAligned (align_of options.now) input.old }
    ensures read { ReadsSome (λ x. x) result input.new (code_at (align_of options.now)
        (behind_learned learned.now (left_of options.now (written room))) input.old) }
    ensures bytes { input.new.bytes ≡ input.old.bytes }
    ensures aligned { IsAligned (align_of options.now) input.new }
{
    let values = first_count(learned, room, options);
    let first = read_part(input, values, options.align())?;
    match first_at(learned, room, first) {
        Some(production) => Ok(production),
        None => read_apart(input, room, options),
    }
}
