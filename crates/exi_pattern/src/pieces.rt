//! The pieces of a pattern.

ghost use Rattle.std.specs.Prelude.{◌≡◌, ◌+◌, ◌∷◌, suc, length, ◌<◌, ◌≤◌, ◌^◌, option_map, IfOk};
ghost use Rattle.std.specs.Str.{chars};
ghost use Rattle.exi_pattern.specs.Patterns.{at_start, atom_at, chars_of, closed, piece, pieces, quantified};
ghost use Rattle.exi_pattern.specs.Readings.{Reads, Gives};

use crate::charset::CharSet;
use crate::escapes::escape;
use crate::groups::group;
use crate::letters::Letters;
use crate::member::Member;
use crate::quantities::quantity;
use crate::stop::{Left, Stop};
use exi_names::{Txt, is_xml};
use std::alloc::{AllocError, Global};

/// How far a pattern is read.
#[derive(Drop)]
struct Reading {
    /// The groups that are open.
    open_groups: usize,
    /// Whether an atom ends here, so that a quantifier may follow.
    atom: bool,
    letters: Letters,
}

impl Reading {
    /// A quantifier, with what is left behind it, where it is one.
    fn quantify<'a>(&mut self, at: &[char], rest: Option<&'a [char]>) -> Result<&'a [char], Left>
        ensures read { Reads (λ r. (self.new, r.now)) result (quantified self.old at.now (option_map (λ r. r.now) rest.entry)) }
        ensures opened { self.new.open_groups ≤ self.old.open_groups }
    {
        match rest {
            Some(rest) if self.atom => {
                self.atom = false;
                Ok(rest)
            }
            _ => Err(Left(at.len())),
        }
    }

    /// A group ends.
    fn close<'a>(&mut self, at: &[char], rest: &'a [char]) -> Result<&'a [char], Left>
        ensures read { Reads (λ r. (self.new, r.now)) result (closed self.old at.now rest.now) }
        ensures opened { self.new.open_groups ≤ self.old.open_groups }
    {
        if self.open_groups == 0 {
            return Err(Left(at.len()));
        }
        self.open_groups -= 1;
        self.atom = true;
        Ok(rest)
    }

    /// A character, an escape or a class: an atom that adds to the letters. What is left is answered.
    #[tactic(auto, unfolding(crate::specs::Patterns::atom_at))]
    fn atom<'a>(&mut self, c: char, at: &'a [char], rest: &'a [char]) -> Result<&'a [char], Stop>
        requires { at.now ≡ c ∷ rest.now }
        ensures read { Gives (λ r. (self.new, r.now)) result (atom_at self.old c rest.now) }
        ensures opened { self.new.open_groups ≤ self.old.open_groups }
    {
        self.atom = true;
        match c {
            '[' => group(&mut self.letters, rest),
            '\\' => {
                let (member, rest) = escape(rest).ok_or(Left(at.len()))?;
                self.letters.add_member(member)?;
                Ok(rest)
            }
            '.' => {
                self.letters.give_up();
                Ok(rest)
            }
            _ if is_xml(c) && c != ']' && c != '}' => {
                self.letters.add_member(Member::Span(c, c))?;
                Ok(rest)
            }
            _ => Err(Stop::Refused(Left(at.len()))),
        }
    }

    /// One step: a parenthesis, a bar, a quantifier or an atom. What is left is answered.
    #[tactic(auto, unfolding(crate::specs::Patterns::piece))]
    fn piece<'a>(&mut self, at: &'a [char]) -> Result<&'a [char], Stop>
        requires { self.old.open_groups + length at.now < 2 ^ 64 }
        ensures read { Gives (λ r. (self.new, r.now)) result (piece self.old at.now) }
        ensures opened { self.new.open_groups ≤ self.old.open_groups + 1 }
    {
        let [c, rest @ ..] = at else {
            return Err(Stop::Refused(Left(0)));
        };
        match *c {
            '(' => {
                self.open_groups += 1;
                self.atom = false;
                Ok(rest)
            }
            ')' => Ok(self.close(at, rest)?),
            '|' => {
                self.atom = false;
                Ok(rest)
            }
            '?' | '*' | '+' => Ok(self.quantify(at, Some(rest))?),
            '{' => Ok(self.quantify(at, quantity(rest))?),
            c => self.atom(c, at, rest),
        }
    }
}

/// The letters of a pattern.
fn pieces(alloc: Global, pattern: &[char]) -> Result<Letters, Stop>
    ensures { Gives (λ x. x) result (pieces (suc (length pattern.now)) at_start pattern.now) }
{
    let mut reading = Reading {
        open_groups: 0,
        atom: false,
        letters: Letters::new(alloc),
    };
    let mut rest = pattern;
    while !rest.is_empty() {
        rest = reading.piece(rest)?;
    }
    if reading.open_groups > 0 {
        return Err(Stop::Refused(Left(0)));
    }
    Ok(reading.letters)
}

/// The characters of a text.
fn characters(alloc: Global, text: &str) -> Result<Vec<char>, AllocError>
    ensures { IfOk result (λ v. v.items ≡ chars text.now) }
{
    Ok(text.chars().collect(alloc)?)
}

/// The characters of a pattern, over all its branches and pieces (XML Schema 1.0 Part 2, appendix F).
///
/// It takes one pass, after the pattern was decoded. Groups are counted and not nested, and a set is given up as soon as it
/// has 256 characters, so neither the depth nor the ranges of a pattern cost more.
///
/// # Errors
///
/// `AllocError` where memory is refused.
pub fn chars_of(alloc: Global, pattern: &Txt) -> Result<CharSet, AllocError>
    ensures { IfOk result (λ set. set ≡ chars_of pattern.now) }
{
    let text = characters(alloc, pattern.as_str())?;
    match pieces(alloc, text.as_slice()) {
        Ok(letters) => letters.into_set(alloc),
        Err(Stop::Refused(Left(left))) => {
            Ok(CharSet::Refused(text.len().saturating_sub(left) as u64))
        }
        Err(Stop::Memory) => Err(AllocError),
    }
}
