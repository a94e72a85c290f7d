//! Character class expressions (XML Schema 1.0 Part 2, appendix F.1).

ghost use Rattle.std.specs.Prelude.{◌≡◌, suc, length, true, false, option_map, OnOk, MatchResult, Ok, Err};
ghost use Rattle.exi_pattern.specs.Groups.{behind_group, behind_one, closes, is_group_char, is_range, group, member, members, range_at, ranged, single};
ghost use Rattle.exi_pattern.specs.Sets.{every};
ghost use Rattle.exi_pattern.specs.Readings.{Reads, Gives};

use crate::escapes::escape;
use crate::letters::Letters;
use crate::member::Member;
use crate::stop::{Left, Stop};
use exi_names::is_xml;

/// One character or an escape, and what is left.
#[tactic(auto, unfolding(crate::specs::Groups::single))]
fn single(at: &[char]) -> Result<(Member, &[char]), Left>
    ensures { Reads (λ x. (x.0, x.1.now)) result (single at.now) }
{
    match at {
        ['\\', rest @ ..] => escape(rest).ok_or(Left(at.len())),
        [c, rest @ ..] if is_xml(*c) && !matches!(*c, '-' | '[' | ']') => {
            Ok((Member::Span(*c, *c), rest))
        }
        _ => Err(Left(at.len())),
    }
}

/// The last character of a range, and what is left.
fn range(first: char, at: &[char]) -> Result<(Member, &[char]), Left>
    ensures { Reads (λ x. (x.0, x.1.now)) result (range_at first at.now) }
{
    match single(at)? {
        (Member::Span(last, _), rest) if first <= last => Ok((Member::Span(first, last), rest)),
        _ => Err(Left(at.len())),
    }
}

/// Whether this goes on to a range: not before `]`, where `-` stands for itself, nor before `[`, where it is refused.
fn is_range(rest: &[char]) -> bool
    ensures { result ≡ is_range rest.now }
{
    match rest {
        ['-', c, ..] => *c != '[' && *c != ']',
        _ => false,
    }
}

/// What is left behind one character.
fn behind_one(rest: &[char]) -> &[char]
    ensures { result.now ≡ behind_one rest.now }
{
    match rest {
        [] => rest,
        [_, behind @ ..] => behind,
    }
}

/// A member, or the range that begins with it, and what is left.
fn ranged(member: Member, rest: &[char]) -> Result<(Member, &[char]), Left>
    ensures { Reads (λ x. (x.0, x.1.now)) result (ranged (member, rest.now)) }
{
    match member {
        Member::Span(first, _) if is_range(rest) => range(first, behind_one(rest)),
        _ => Ok((member, rest)),
    }
}

/// One character, escape or range of a group, and what is left.
///
/// `-` stands for itself first and last. Elsewhere it is refused, and so is what is taken away, as in `[a-z-[x]]`.
#[tactic(auto, unfolding(crate::specs::Groups::member))]
fn member(first: bool, at: &[char]) -> Result<(Member, &[char]), Left>
    ensures { Reads (λ x. (x.0, x.1.now)) result (member first at.now) }
{
    match at {
        [] => Err(Left(0)),
        ['-', rest @ ..] if first || closes(rest) => Ok((Member::Span('-', '-'), rest)),
        ['-', ..] => Err(Left(at.len())),
        [_, ..] => {
            let (member, rest) = single(at)?;
            ranged(member, rest)
        }
    }
}

/// Whether the group ends here.
fn closes(rest: &[char]) -> bool
    ensures { result ≡ closes rest.now }
{
    matches!(rest, [']', ..])
}

/// What is left behind `]`, where the group ends here.
fn behind_group(rest: &[char]) -> Option<&[char]>
    ensures { option_map (λ r. r.now) result ≡ behind_group rest.now }
{
    match rest {
        [']', behind @ ..] => Some(behind),
        _ => None,
    }
}

/// The members of a group up to `]`, one at least. What is left is answered.
fn members<'a>(letters: &mut Letters, at: &'a [char]) -> Result<&'a [char], Stop>
    ensures { Gives (λ r. (letters.new, r.now)) result (members (suc (length at.now)) true letters.old at.now) }
{
    let (first, mut rest) = member(true, at)?;
    letters.add_member(first)?;
    loop {
        if let Some(behind) = behind_group(rest) {
            return Ok(behind);
        }
        let (next, behind) = member(false, rest)?;
        letters.add_member(next)?;
        rest = behind;
    }
}

/// What stands behind `[`: its characters are added to the letters. What is left is answered.
#[tactic(auto, unfolding(crate::specs::Groups::group))]
pub(crate) fn group<'a>(letters: &mut Letters, rest: &'a [char]) -> Result<&'a [char], Stop>
    ensures { Gives (λ r. (letters.new, r.now)) result (group letters.old rest.now) }
{
    if let ['^', rest @ ..] = rest {
        letters.give_up();
        return members(letters, rest);
    }
    members(letters, rest)
}
