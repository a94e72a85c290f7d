//! A tape's bytes, read from the first on.
ghost use Rattle.std.specs.Prelude.{◌≡◌, ◌≤◌, ℕ, length, map, None, Some, IfNone, IfSome, OnOk, ◌==◌, [], ◌++◌};
ghost use Rattle.exi_tape.specs.Reading.{byte_at, bytes_at, eight_at, flag_at, number_at, octets_at, short_at, signed_at, text_at, text_of, wide_at};
ghost use Rattle.exi_tape.specs.Rolls.{backwards};
ghost use Rattle.exi_tape.specs.Walks.{Gives, GivesAlone, left};
ghost use Rattle.exi_tape.specs.declared.walk.Unread.TheVariants.{Memory};

use exi_names::{Octets, Txt};
use std::alloc::{AllocError, Global};

/// Why something was not read.
#[derive(Clone, Copy, Debug)]
pub(crate) enum Unread {
    /// Memory was refused.
    Memory,
    /// The bytes do not spell it. No tape has such bytes.
    Broken,
}

/// Where memory is refused, nothing was read.
impl From<AllocError> for Unread {
    ghost from_gives = { λ _ e. e ≡ Memory };

    fn from(_error: AllocError) -> Unread {
        Unread::Memory
    }
}

/// The bytes that are left to read.
#[derive(Drop)]
pub(crate) struct Walk<'a> {
    /// What is left of the page that is read.
    rest: &'a [u8],
    /// The pages after it, the last first.
    later: Vec<&'a [u8]>,
    /// Bytes that lay on more than one page, put together.
    pieces: Vec<u8>,
}

impl<'a> Walk<'a> {
    /// The bytes of pages, of which the last comes first.
    pub(crate) fn of(alloc: Global, pages: Vec<&'a [u8]>) -> Walk<'a>
        ensures { left result ≡ backwards (map (λ s. s.now) pages.entry.items) }
    {
        Walk {
            rest: &[],
            later: pages,
            pieces: Vec::new(alloc),
        }
    }

    /// Goes on to the next page that has bytes, where nothing is left of this one.
    fn turn(&mut self)
        ensures left { left self.new ≡ left self.old }
        ensures none { length self.new.rest.now ≡ 0 → left self.new ≡ [] }
        ensures pieces { self.new.pieces ≡ self.old.pieces }
    {
        while self.rest.is_empty() {
            match self.later.pop() {
                Some(page) => self.rest = page,
                None => return,
            }
        }
    }

    /// Whether no bytes are left.
    pub(crate) fn is_over(&mut self) -> bool
        ensures over { result ≡ (length (left self.old) == 0) }
        ensures left { left self.new ≡ left self.old }
    {
        self.turn();
        self.rest.is_empty()
    }

    /// The next byte.
    #[inline]
    #[tactic(auto, unfolding(crate::specs::Reading::byte_at))]
    pub(crate) fn byte(&mut self) -> Result<u8, Unread>
        ensures { Gives (λ b. b) result (left self.new) (byte_at (left self.old)) }
    {
        if self.rest.is_empty() {
            self.turn();
        }
        match self.rest.split_first() {
            Some((first, rest)) => {
                self.rest = rest;
                Ok(*first)
            }
            None => Err(Unread::Broken),
        }
    }

    /// That many bytes, where they lie on one page.
    #[inline]
    #[tactic(auto, unfolding(crate::specs::Reading::bytes_at))]
    fn piece(&mut self, count: u64) -> Option<&'a [u8]>
        ensures some { IfSome result (λ p. bytes_at count (left self.old) ≡ Some (p.now, left self.new)) }
        ensures count { IfSome result (λ p. length p.now ≡ count) }
        ensures none { IfNone result (left self.new ≡ left self.old) }
    {
        if count > self.rest.len() as u64 {
            return None;
        }
        let (front, rest) = self.rest.split_at(count as usize);
        self.rest = rest;
        Some(front)
    }

    /// That many bytes, put together.
    fn gather(&mut self, count: u64) -> Result<(), Unread>
        ensures read { Gives (λ _. self.new.pieces.items) result (left self.new) (bytes_at count (left self.old)) }
        ensures count { OnOk result (length self.new.pieces.items ≡ count) }
    {
        self.pieces.clear();
        let mut missing = count;
        while missing > 0 {
            self.turn();
            if self.rest.is_empty() {
                return Err(Unread::Broken);
            }
            let step = missing.min(self.rest.len() as u64);
            let (front, rest) = self.rest.split_at(step as usize);
            self.pieces.extend_from_slice(front)?;
            self.rest = rest;
            missing -= step;
        }
        Ok(())
    }

    /// A number of eight bytes.
    #[inline(never)]
    #[tactic(auto, unfolding(crate::specs::Reading::eight_at))]
    fn eight(&mut self) -> Result<u64, Unread>
        ensures { Gives (λ n. n) result (left self.new) (eight_at (left self.old)) }
    {
        let mut octets = [0; 8];
        match self.piece(8) {
            Some(bytes) => octets.copy_from_slice(bytes),
            None => {
                self.gather(8)?;
                octets.copy_from_slice(self.pieces.as_slice());
            }
        }
        Ok(u64::from_le_bytes(octets))
    }

    /// A number.
    #[inline]
    #[tactic(auto, unfolding(crate::specs::Reading::number_at))]
    pub(crate) fn number(&mut self) -> Result<u64, Unread>
        ensures { Gives (λ n. n) result (left self.new) (number_at (left self.old)) }
    {
        let first = self.byte()?;
        if first < 255 {
            return Ok(u64::from(first));
        }
        self.eight()
    }

    /// A number of 128 bits.
    #[tactic(auto, unfolding(crate::specs::Reading::wide_at))]
    pub(crate) fn wide(&mut self) -> Result<u128, Unread>
        ensures { Gives (λ n. n) result (left self.new) (wide_at (left self.old)) }
    {
        let low = self.number()?;
        let high = self.number()?;
        Ok(u128::from(low) + u128::from(high) * (1 << 64))
    }

    /// Whether something is so.
    #[inline]
    #[tactic(auto, unfolding(crate::specs::Reading::flag_at))]
    pub(crate) fn flag(&mut self) -> Result<bool, Unread>
        ensures { Gives (λ b. b) result (left self.new) (flag_at (left self.old)) }
    {
        Ok(self.byte()? > 0)
    }

    /// A number of 64 bits with a sign.
    #[tactic(auto, unfolding(crate::specs::Reading::signed_at))]
    pub(crate) fn signed(&mut self) -> Result<i64, Unread>
        ensures { Gives (λ n. n) result (left self.new) (signed_at (left self.old)) }
    {
        Ok(self.number()?.cast_signed())
    }

    /// A number of 16 bits with a sign.
    #[tactic(auto, unfolding(crate::specs::Reading::short_at))]
    pub(crate) fn short(&mut self) -> Result<i16, Unread>
        ensures { Gives (λ n. n) result (left self.new) (short_at (left self.old)) }
    {
        let n = self.number()?;
        if n < 65536 {
            return Ok((n as u16).cast_signed());
        }
        Err(Unread::Broken)
    }

    /// Octets.
    #[tactic(auto, unfolding(crate::specs::Reading::octets_at))]
    pub(crate) fn octets(&mut self, alloc: Global) -> Result<Octets, Unread>
        ensures { Gives (λ o. o) result (left self.new) (octets_at (left self.old)) }
    {
        let count = self.number()?;
        match self.piece(count) {
            Some(bytes) => Ok(Octets::of(alloc, bytes)?),
            None => {
                self.gather(count)?;
                Ok(Octets::of(alloc, self.pieces.as_slice())?)
            }
        }
    }

    /// A text, in place of another. Memory that the other has is kept.
    #[inline]
    #[tactic(auto, unfolding(crate::specs::Reading::octets_at, crate::specs::Reading::text_at))]
    pub(crate) fn text(&mut self, text: &mut Txt) -> Result<(), Unread>
        ensures { Gives (λ _. text.new) result (left self.new) (text_at (left self.old)) }
    {
        let count = self.number()?;
        match self.piece(count) {
            Some(bytes) => set_text(text, bytes),
            None => {
                self.gather(count)?;
                set_text(text, self.pieces.as_slice())
            }
        }
    }
}

/// Puts the characters of some UTF-8 in place of those of a text.
#[inline]
#[tactic(auto, unfolding(crate::specs::Reading::text_of))]
fn set_text(text: &mut Txt, bytes: &[u8]) -> Result<(), Unread>
    ensures { GivesAlone (λ _. text.new) result (text_of bytes.now) }
{
    text.clear();
    if bytes.is_ascii() {
        text.push_ascii(bytes)?;
        return Ok(());
    }
    match std::str::from_utf8(bytes) {
        Ok(characters) => {
            text.push_str(characters)?;
            Ok(())
        }
        Err(_) => Err(Unread::Broken),
    }
}
