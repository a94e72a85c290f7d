ghost use Rattle.std.specs.Prelude.{◌≡◌, ◌+◌, ◌*◌, ◌-◌, ◌%◌, ◌^◌, ◌<◌, ◌≤◌, length, Ok, IfSome, IfOk, OnErr, MatchOption};
ghost use Rattle.exi_bits.specs.Bits.{Spot, left, moved, at_bit, at_next_byte, taken, IsAligned, Takes, number_at};
ghost use Rattle.exi_bits.specs.Repeat.{octets_at};
ghost use Rattle.exi_bits.specs.Unsigned.{behind_first, one_octet_at, unsigned_at, field_at, below_at, Reads, ReadsSome, Stops};
ghost use Rattle.exi_bits.specs.declared.align.Align.TheVariants as align;

use crate::align::Align;
use crate::fault::{Fault, Kind, Stop};
use crate::widths::bits_for;
use crate::words::{bits_in, bytes_at, octets_from, with_group};
use std::alloc::Global;
use std::marker::Model;

/// Bytes, and the bit at which reading goes on: its place, counted from 0 at the first byte's most
/// significant bit. No call takes memory, and a call that answers `None` or `Err` leaves the place.
///
/// A contract sees it as a `Spot`, the bytes and the place.
#[derive(Drop)]
pub struct BitIn<'a> {
    bytes: &'a [u8],
    place: u64,
}

impl<'a> Model for BitIn<'a> {
    ghost use Rattle.std.specs.Prelude.{◌*◌, ◌^◌, ◌≤◌, length};
    ghost use Rattle.exi_bits.specs.Bits.{Spot};

    ghost Value = { Spot };

    ghost view = { λ b. record { bytes = b.bytes.now; place = b.place } };

    ghost invariant = { λ b. (length b.bytes.now ≤ 2 ^ 32) × (b.place ≤ 8 * length b.bytes.now) };
}

impl<'a> BitIn<'a> {
    /// Reads at the first bit. There may be at most 2^32 bytes.
    pub fn new(bytes: &'a [u8]) -> Self
        requires { length bytes.now ≤ 2 ^ 32 }
        ensures { result ≡ record { bytes = bytes.now; place = 0 } }
    {
        BitIn { bytes, place: 0 }
    }

    /// The place.
    #[inline]
    pub fn at(&self) -> u64
        ensures place { result ≡ self.now.place }
        ensures within { result ≤ 8 * length self.now.bytes }
    {
        self.place
    }

    /// How many bits remain.
    #[inline]
    pub fn left(&self) -> u64
        ensures { result ≡ left self.now }
    {
        self.bytes.len() as u64 * 8 - self.place
    }

    /// Takes an n-bit number of at most 64 bits (EXI 1.0, section 7.1.9): `width` bits, or under
    /// [`Align::Bytes`] the whole bytes that hold so many, where the number may come out too great for
    /// its width. A number of no bits is 0. Under `Bytes` the place has to be a whole byte.
    ///
    /// `None` exactly where fewer bits remain.
    #[inline(always)]
    #[tactic(auto, unfolding(crate::specs::Bits::number_at))]
    pub fn take(&mut self, width: u32, align: Align) -> Option<u64>
        requires narrow { width ≤ 64 }
        requires aligned { IsAligned align self.old }
        ensures read { Takes result self.old self.new (number_at width align self.old) }
        ensures below { IfSome result (λ v. v < 2 ^ taken width align) }
        ensures place { MatchOption result (self.new ≡ self.old) (λ _. self.new ≡ moved self.old (taken width align)) }
    {
        match align {
            Align::Bits => {
                let Some(value) = bits_in(self.bytes, self.place, width) else {
                    return None;
                };
                self.place += u64::from(width);
                Some(value)
            }
            Align::Bytes => {
                let count = (width + 7) / 8;
                if self.left() < u64::from(count) * 8 {
                    return None;
                }
                let value = bytes_at(self.bytes, self.place / 8, count);
                self.place += u64::from(count) * 8;
                Some(value)
            }
        }
    }

    /// Goes to a bit, at most to the end.
    #[inline]
    pub fn go_to_bit(&mut self, place: u64)
        requires { place ≤ 8 * length self.old.bytes }
        ensures { self.new ≡ at_bit self.old place }
    {
        self.place = place;
    }

    /// Goes to the next whole byte. The place stays where it is one.
    pub fn skip_to_byte(&mut self)
        ensures place { self.new ≡ at_next_byte self.old }
    {
        self.place = (self.place + 7) / 8 * 8;
    }

    /// Goes to the first bit of a byte, or to the end.
    pub fn go(&mut self, byte: u64)
        requires within { byte ≤ length self.old.bytes }
        ensures place { self.new ≡ at_bit self.old (8 * byte) }
    {
        prove!(byte <= self.bytes.len() as u64);
        self.place = byte * 8;
    }

    /// Takes eight bits.
    #[inline(always)]
    fn octet(&mut self) -> Option<u64>
        ensures read { Takes result self.old self.new (number_at 8 align.Bits self.old) }
        ensures below { IfSome result (λ v. v < 256) }
        ensures place { MatchOption result (self.new ≡ self.old) (λ _. self.new ≡ moved self.old 8) }
    {
        self.take(8, Align::Bits)
    }

    /// Takes an Unsigned Integer of one octet (EXI 1.0, section 7.1.6) at any bit: the most frequent spelling of a
    /// number below 128.
    ///
    /// `None` exactly where fewer than eight bits remain or the octet has the top bit.
    #[tactic(auto, unfolding(crate::specs::Unsigned::one_octet_at))]
    #[inline(always)]
    pub fn one_octet(&mut self) -> Option<u64>
        ensures read { Takes result self.old self.new (one_octet_at self.old) }
        ensures unsigned { IfSome result (λ v. unsigned_at self.old ≡ Ok (v, self.new)) }
        ensures below { IfSome result (λ v. v < 128) }
        ensures bytes { self.new.bytes ≡ self.old.bytes }
        ensures phase { self.new.place % 8 ≡ self.old.place % 8 }
    {
        let bit = self.at();
        let Some(first) = self.octet() else {
            return None;
        };
        if first < 128 {
            return Some(first);
        }
        self.go_to_bit(bit);
        None
    }

    /// Takes the octets of an Unsigned Integer behind a first one that goes on. The place is anything
    /// after an `Err`.
    #[cold]
    fn groups(&mut self, first: u64) -> Result<u128, Kind>
        requires goes_on { 128 ≤ first }
        requires octet { first < 256 }
        ensures read { ReadsSome (λ x. x) result self.new (behind_first first self.old) }
        ensures bytes { self.new.bytes ≡ self.old.bytes }
        ensures phase { self.new.place % 8 ≡ self.old.place % 8 }
    {
        let mut value = u128::from(first - 128);
        for group in 1..19u32 {
            let Some(octet) = self.octet() else {
                return Err(Kind::Short);
            };
            let Some(more) = with_group(value, group, octet % 128) else {
                return Err(Kind::TooWide);
            };
            value = more;
            if octet < 128 {
                return Ok(value);
            }
        }
        Err(Kind::TooWide)
    }

    /// Takes an Unsigned Integer (EXI 1.0, section 7.1.6) at any bit: octets of seven bits of the
    /// number each, the least significant first, all but the last with the top bit.
    ///
    /// # Errors
    ///
    /// At the first bit of the integer: `Short` where the bits end before the last octet does, and
    /// `TooWide` where the 19th octet has the top bit or brings the value to 2^128 or more.
    #[tactic(auto, unfolding(crate::specs::Unsigned::unsigned_at))]
    #[inline]
    pub fn unsigned(&mut self) -> Result<u128, Fault>
        ensures read { Reads (λ x. x) result self.old self.new (unsigned_at self.old) }
        ensures bytes { self.new.bytes ≡ self.old.bytes }
        ensures phase { self.new.place % 8 ≡ self.old.place % 8 }
    {
        let bit = self.at();
        let Some(first) = self.octet() else {
            return Err(Fault {
                kind: Kind::Short,
                bit,
            });
        };
        if first < 128 {
            return Ok(u128::from(first));
        }
        match self.groups(first) {
            Ok(value) => Ok(value),
            Err(kind) => {
                self.go_to_bit(bit);
                Err(Fault { kind, bit })
            }
        }
    }

    /// Takes `count` octets, numbers of eight bits one after another, at any bit.
    ///
    /// # Errors
    ///
    /// The place is then as before.
    ///
    /// - `Short` at the octet at which the bits end; no memory is taken then, whatever the count.
    /// - `Memory` where memory is refused.
    pub fn octets(&mut self, alloc: Global, count: u128) -> Result<Vec<u8>, Stop>
        ensures read { Stops (λ o. o.items) result self.new (octets_at count self.old) }
        ensures place { OnErr result (self.new ≡ self.old) }
        ensures bytes { self.new.bytes ≡ self.old.bytes }
        ensures phase { self.new.place % 8 ≡ self.old.place % 8 }
    {
        let held = self.left() / 8;
        if count > u128::from(held) {
            return Err(Stop::Fault(Fault {
                kind: Kind::Short,
                bit: self.place + held * 8,
            }));
        }
        let octets = octets_from(alloc, self.bytes, self.place, count as usize)?;
        self.place += count as u64 * 8;
        Ok(octets)
    }

    /// Takes an n-bit number, as [`BitIn::take`] does.
    ///
    /// # Errors
    ///
    /// `Short` at the place, where fewer bits remain.
    #[tactic(auto, unfolding(crate::specs::Unsigned::field_at))]
    #[inline(always)]
    pub fn number(&mut self, width: u32, align: Align) -> Result<u64, Fault>
        requires narrow { width ≤ 64 }
        requires aligned { IsAligned align self.old }
        ensures read { Reads (λ x. x) result self.old self.new (field_at width align self.old) }
        ensures below { IfOk result (λ v. v < 2 ^ taken width align) }
        ensures bytes { self.new.bytes ≡ self.old.bytes }
        ensures aligned { IsAligned align self.new }
    {
        let bit = self.at();
        match self.take(width, align) {
            Some(value) => Ok(value),
            None => Err(Fault {
                kind: Kind::Short,
                bit,
            }),
        }
    }

    /// Takes a number that chooses one of `count` things: an n-bit number of the fewest bits that tell
    /// so many apart (EXI 1.0, section 7.1.9). One thing takes no bits.
    ///
    /// # Errors
    ///
    /// At the first bit of the number: `Short` where fewer bits remain, and `kind` where the number is
    /// not below the count, as with a count of 0 at once.
    #[inline(always)]
    pub fn below(&mut self, count: u64, align: Align, kind: Kind) -> Result<u64, Fault>
        requires aligned { IsAligned align self.old }
        ensures read { Reads (λ x. x) result self.old self.new (below_at count align kind self.old) }
        ensures below { IfOk result (λ v. v < count) }
        ensures bytes { self.new.bytes ≡ self.old.bytes }
        ensures aligned { IsAligned align self.new }
    {
        if count <= 1 {
            // a number of no bits
            if count == 1 {
                return Ok(0);
            }
            let bit = self.at();
            return Err(Fault { kind, bit });
        }
        self.one_of(count, align, kind)
    }

    /// Takes a number below a count, of the width of the count.
    #[tactic(auto, unfolding(crate::specs::Unsigned::below_at))]
    #[inline(always)]
    fn one_of(&mut self, count: u64, align: Align, kind: Kind) -> Result<u64, Fault>
        requires aligned { IsAligned align self.old }
        ensures read { Reads (λ x. x) result self.old self.new (below_at count align kind self.old) }
        ensures below { IfOk result (λ v. v < count) }
        ensures bytes { self.new.bytes ≡ self.old.bytes }
        ensures aligned { IsAligned align self.new }
    {
        let bit = self.at();
        let value = self.number(bits_for(count), align)?;
        if value < count {
            return Ok(value);
        }
        self.go_to_bit(bit);
        Err(Fault { kind, bit })
    }
}
