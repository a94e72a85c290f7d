ghost use Rattle.std.specs.Prelude.{◌≡◌, ◌≤◌, None, Some, IsTrue, filter, length};
ghost use Rattle.std.specs.Option.{option_map};
ghost use Rattle.exi_gram.specs.Codes.{coded};
ghost use Rattle.exi_gram.specs.Tables.{parts_of};
ghost use Rattle.exi_builtin.specs.BuiltIn.{is_kept, left_of, written};
ghost use Rattle.exi_builtin.specs.LeastCodes.{first_code, first_place, is_it};
ghost use Rattle.exi_builtin.specs.Learning.{behind_learned};

use crate::code_list::Front;
use crate::learnable::{Learnable, Room};
use crate::learned_list::LearnedList;
use crate::reading::kept_count;
use crate::written::{as_written, is_kept};
use exi_gram::{Code, Options};

/// Whether a production is this one.
#[inline]
fn is_it(production: Learnable, other: Learnable) -> bool
    ensures { result ≡ is_it production other }
{
    match (production, other) {
        (Learnable::Known(name, attribute), Learnable::Known(known, a)) => {
            known == name && a == attribute
        }
        (Learnable::Ch(one_part), Learnable::Ch(o)) => o == one_part,
        (Learnable::Ee(one_part), Learnable::Ee(o)) => o == one_part,
        (Learnable::SeAny, Learnable::SeAny)
        | (Learnable::AtAny, Learnable::AtAny)
        | (Learnable::Ed, Learnable::Ed)
        | (Learnable::Ns, Learnable::Ns)
        | (Learnable::Sc, Learnable::Sc)
        | (Learnable::Er, Learnable::Er)
        | (Learnable::Cm, Learnable::Cm)
        | (Learnable::Pi, Learnable::Pi) => true,
        _ => false,
    }
}

/// The place of a production among those that the options leave.
fn kept_place(options: &Options, list: &[Learnable], production: Learnable) -> Option<u32>
    requires few { length list.now ≤ 8 }
    ensures { result ≡ first_place (is_it production) (filter (is_kept options.now) list.now) }
{
    let mut place = 0;
    for other in list {
        if is_kept(options, *other) {
            if is_it(production, *other) {
                return Some(place);
            }
            place += 1;
        }
    }
    None
}

/// The place of a production among those that are written with codes of one part.
fn first_written(room: Room, production: Learnable) -> Option<u32>
    ensures { result ≡ first_place (is_it production) (written room).firsts }
{
    match room {
        Room::StartTag(_) => None,
        Room::Content(_) => {
            if is_it(production, Learnable::Ee(true)) {
                return Some(0);
            }
            None
        }
        Room::Fragment => {
            if is_it(production, Learnable::SeAny) {
                return Some(0);
            }
            if is_it(production, Learnable::Ed) {
                return Some(1);
            }
            None
        }
    }
}

/// The least code of a production that has none of one part in a state that learned so many.
fn longer_code(
    learned: &LearnedList,
    room: Room,
    production: Learnable,
    options: &Options,
) -> Option<Code>
    requires new { first_place (is_it production) learned.now ≡ None }
    requires behind { first_place (is_it production) (written room).firsts ≡ None }
    ensures { option_map parts_of result ≡ first_code (is_it production)
        (coded (behind_learned learned.now (left_of options.now (written room)))) }
{
    let written = as_written(room);
    let first = learned.len() + written.firsts.len() as u32;
    if let Some(second) = kept_place(options, written.singles, production) {
        return Some(Front::First(first).code(second));
    }
    let second = kept_count(options, written.singles);
    let third = kept_place(options, written.members, production)?;
    Some(Front::Second(first, second).code(third))
}

/// The least code of a production that was not learned. It is asked for at the first use of a name, of characters and of an
/// end, and so stands apart.
#[cold]
#[inline(never)]
fn written_code(
    learned: &LearnedList,
    room: Room,
    production: Learnable,
    options: &Options,
) -> Option<Code>
    requires { first_place (is_it production) learned.now ≡ None }
    ensures { option_map parts_of result ≡ first_code (is_it production)
        (coded (behind_learned learned.now (left_of options.now (written room)))) }
{
    if let Some(place) = first_written(room, production) {
        return Some(Front::Empty.code(learned.len() + place));
    }
    longer_code(learned, room, production, options)
}

/// [`written_code`], whose answer in memory is met on its way alone.
#[inline(always)]
fn code_apart(
    learned: &LearnedList,
    room: Room,
    production: Learnable,
    options: &Options,
) -> Option<Code>
    requires { first_place (is_it production) learned.now ≡ None }
    ensures { option_map parts_of result ≡ first_code (is_it production)
        (coded (behind_learned learned.now (left_of options.now (written room)))) }
{
    match written_code(learned, room, production, options) {
        Some(code) => Some(code),
        None => None,
    }
}

/// Whether a production is the end of an element in its content, the one written there with a code of one part.
#[inline(always)]
fn is_end_of_content(room: Room, production: Learnable) -> bool
    ensures { IsTrue result → first_place (is_it production) (written room).firsts ≡ Some 0 }
{
    match (room, production) {
        (Room::Content(_), Learnable::Ee(one_part)) => one_part,
        _ => false,
    }
}

/// The least code of a production in a state that learned these.
#[inline(always)]
pub fn least_code(
    learned: &LearnedList,
    room: Room,
    production: Learnable,
    options: &Options,
) -> Option<Code>
    ensures { option_map parts_of result ≡ first_code (is_it production)
        (coded (behind_learned learned.now (left_of options.now (written room)))) }
{
    if let Some(first) = learned.code_of(production) {
        return Some(Front::Empty.code(first));
    }
    if is_end_of_content(room, production) {
        return Some(Front::Empty.code(learned.len()));
    }
    code_apart(learned, room, production, options)
}
