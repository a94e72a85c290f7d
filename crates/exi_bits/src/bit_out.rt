ghost use Rattle.std.specs.Prelude.{◌≡◌, ◌+◌, ◌*◌, ◌-◌, ◌/◌, ◌%◌, ◌^◌, ◌<◌, ◌≤◌, ◌++◌, [], List, length, OnOk, OnErr, vec_len, vec_capacity};
ghost use Rattle.exi_bits.specs.Bits.{bits, number, number_bits, le_bytes};
ghost use Rattle.exi_bits.specs.Unsigned.{shortest};
ghost use Rattle.exi_bits.specs.Written.{zeros, written, padded, IsPadded, IsWholeBytes};

use crate::align::Align;
use crate::words::{gathered_few, word_at};
use std::alloc::{AllocError, Global};
use std::marker::Model;

/// Bits that were written, in bytes. The last byte has `spare` bits 0 at its end.
///
/// A contract sees the list of the bits.
#[derive(Drop)]
pub struct BitOut {
    bytes: Vec<u8>,
    spare: u32,
}

impl Model for BitOut {
    ghost use Rattle.std.specs.Prelude.{◌<◌, List, Bool};
    ghost use Rattle.exi_bits.specs.Written.{written, IsPadded};

    ghost Value = { List Bool };

    ghost view = { λ b. written b.bytes.items b.spare };

    ghost invariant = { λ b. IsPadded b.bytes.items b.spare };
}

/// Adds the bits of a number to whole bytes, and 0 bits up to a whole byte. Answers how many.
#[inline]
fn push_bits(bytes: &mut Vec<u8>, value: u64, width: u32) -> u32
    requires fits { value < 2 ^ width }
    requires narrow { width ≤ 64 }
    requires room { vec_len bytes.old + 8 ≤ vec_capacity bytes.old }
    ensures bits { bits bytes.new.items ≡ bits bytes.old.items ++ number_bits width value ++ zeros result }
    ensures spare { result < 8 }
{
    let mut rest = value;
    let mut left = width;
    while left >= 8 {
        let low = left - 8;
        bytes.push_reserved((rest >> low) as u8);
        rest &= (1u64 << low) - 1;
        left = low;
    }
    if left == 0 {
        return 0;
    }
    bytes.push_reserved((rest << (8 - left)) as u8);
    8 - left
}

/// The same by one word, which is less work where there are many bits. Answers how many 0 bits.
#[inline]
fn push_word(bytes: &mut Vec<u8>, value: u64, width: u32) -> u32
    requires fits { value < 2 ^ width }
    requires narrow { width ≤ 64 }
    requires room { vec_len bytes.old + 8 ≤ vec_capacity bytes.old }
    ensures bits { bits bytes.new.items ≡ bits bytes.old.items ++ number_bits width value ++ zeros result }
    ensures spare { result < 8 }
{
    if width == 0 {
        return 0;
    }
    let count = (width + 7) / 8;
    let end = bytes.len() + count as usize;
    let word = value << (64 - width);
    // there is room for all of the word, of which the number's bytes stay
    bytes.extend_from_slice(&word.to_be_bytes()).unwrap();
    bytes.truncate(end);
    count * 8 - width
}

/// Adds a number to a last byte that has room for it.
#[inline(always)]
fn fill_tail(bytes: &mut Vec<u8>, spare: u32, value: u64, width: u32)
    requires padded { IsPadded bytes.old.items spare }
    requires within { width ≤ spare }
    requires fits { value < 2 ^ width }
    ensures padded { IsPadded bytes.new.items (spare - width) }
    ensures bits { written bytes.new.items (spare - width) ≡ written bytes.old.items spare ++ number_bits width value }
    ensures room { (vec_len bytes.new ≡ vec_len bytes.old) × (vec_capacity bytes.new ≡ vec_capacity bytes.old) }
{
    if let Some(last) = bytes.pop() {
        let all = u64::from(last >> spare) * (1u64 << width) + value;
        bytes.push_reserved((all << (spare - width)) as u8);
    }
}

/// The bytes of a number, the least significant first.
fn push_bytes(bytes: &mut Vec<u8>, value: u64, count: u32)
    requires narrow { count ≤ 8 }
    requires room { vec_len bytes.old + count ≤ vec_capacity bytes.old }
    ensures bytes { bytes.new.items ≡ bytes.old.items ++ le_bytes count value }
{
    let mut rest = value;
    for _ in 0..count {
        bytes.push_reserved((rest % 256) as u8);
        rest /= 256;
    }
}

/// One octet behind bits that end in a part of a byte.
#[inline]
fn push_octet(bytes: &mut Vec<u8>, spare: u32, octet: u8)
    requires padded { IsPadded bytes.old.items spare }
    requires room { vec_len bytes.old + 1 ≤ vec_capacity bytes.old }
    ensures padded { IsPadded bytes.new.items spare }
    ensures bits { written bytes.new.items spare ≡ written bytes.old.items spare ++ number_bits 8 octet }
    ensures room { (vec_len bytes.new ≡ vec_len bytes.old + 1) × (vec_capacity bytes.new ≡ vec_capacity bytes.old) }
{
    if spare == 0 {
        bytes.push_reserved(octet);
        return;
    }
    if let Some(last) = bytes.pop() {
        let behind = 8 - spare;
        let all = u32::from(last >> spare) * 256 + u32::from(octet);
        bytes.push_reserved((all >> behind) as u8);
        bytes.push_reserved(((all & ((1u32 << behind) - 1)) << spare) as u8);
    }
}

/// Octets, eight at a time, behind whole bytes and so many bits of a number that fill no byte yet. Each
/// eight leave their last bits, as many, to the next. Answers the number of those that are left.
fn push_words(bytes: &mut Vec<u8>, behind: u32, first: u64, octets: &[u8]) -> u64
    requires some { 1 ≤ behind }
    requires few { behind ≤ 8 }
    requires fits { first < 2 ^ behind }
    requires whole { length octets.now % 8 ≡ 0 }
    requires room { vec_len bytes.old + length octets.now ≤ vec_capacity bytes.old }
    ensures bits { bits bytes.new.items ++ number_bits behind result ≡ (bits bytes.old.items ++ number_bits behind first) ++ bits octets.now }
    ensures fits { result < 2 ^ behind }
    ensures room { (vec_len bytes.new ≡ vec_len bytes.old + length octets.now) × (vec_capacity bytes.old ≤ vec_capacity bytes.new) }
{
    let mut tail = first;
    for word in 0..octets.len() / 8 {
        let all = word_at(octets, word * 8);
        let out = (tail << (64 - behind)) + (all >> behind);
        // there is room for it
        bytes.extend_from_slice(&out.to_be_bytes()).unwrap();
        tail = all & ((1u64 << behind) - 1);
    }
    tail
}

/// Octets behind bits that end in a part of a byte: words, and then the octets that are left as one number.
fn push_octets(bytes: &mut Vec<u8>, spare: u32, octets: &[u8])
    requires padded { IsPadded bytes.old.items spare }
    requires room { vec_len bytes.old + length octets.now + 8 ≤ vec_capacity bytes.old }
    ensures padded { IsPadded bytes.new.items spare }
    ensures bits { written bytes.new.items spare ≡ written bytes.old.items spare ++ bits octets.now }
{
    if spare == 0 {
        // there is room for them
        bytes.extend_from_slice(octets).unwrap();
        return;
    }
    let front = octets.len() / 8 * 8;
    if let Some(last) = bytes.pop() {
        let tail = push_words(bytes, 8 - spare, u64::from(last >> spare), &octets[..front]);
        let rest = &octets[front..];
        let width = 8 * rest.len() as u32;
        let all = tail * (1u64 << width) + gathered_few(rest);
        push_word(bytes, all, 8 - spare + width);
    }
}

/// The octets of an Unsigned Integer behind the bits.
fn push_groups(bytes: &mut Vec<u8>, spare: u32, value: u128)
    requires padded { IsPadded bytes.old.items spare }
    requires room { vec_len bytes.old + 19 ≤ vec_capacity bytes.old }
    ensures padded { IsPadded bytes.new.items spare }
    ensures bits { written bytes.new.items spare ≡ written bytes.old.items spare ++ bits (shortest value) }
{
    let mut rest = value;
    for _ in 0..18u32 {
        if rest < 128 {
            push_octet(bytes, spare, rest as u8);
            return;
        }
        push_octet(bytes, spare, (rest % 128) as u8 + 128);
        rest /= 128;
    }
    push_octet(bytes, spare, rest as u8);
}

impl BitOut {
    /// No bits. Takes no memory yet.
    pub fn new(alloc: Global) -> BitOut
        ensures { result ≡ [] }
    {
        BitOut {
            bytes: Vec::new(alloc),
            spare: 0,
        }
    }

    /// Adds an n-bit number of at most 64 bits (EXI 1.0, section 7.1.9), as [`BitIn::take`] reads it.
    /// The value has to fit the width, and under [`Align::Bytes`] there have to be whole bytes of bits.
    ///
    /// # Errors
    ///
    /// Where there is no memory. The bits are then as before.
    ///
    /// [`BitIn::take`]: crate::BitIn::take
    #[inline(always)]
    pub fn put(&mut self, value: u64, width: u32, align: Align) -> Result<(), AllocError>
        requires narrow { width ≤ 64 }
        requires fits { value < 2 ^ width }
        requires aligned { IsWholeBytes align self.old }
        ensures ok { OnOk result (self.new ≡ self.old ++ number width align value) }
        ensures err { OnErr result (self.new ≡ self.old) }
        ensures aligned { IsWholeBytes align self.new }
    {
        match align {
            Align::Bits => self.put_bits(value, width),
            Align::Bytes => self.put_bytes(value, (width + 7) / 8),
        }
    }

    /// Adds a number bit by bit, the most significant first. Most fit the last byte.
    #[inline(always)]
    fn put_bits(&mut self, value: u64, width: u32) -> Result<(), AllocError>
        requires narrow { width ≤ 64 }
        requires fits { value < 2 ^ width }
        ensures ok { OnOk result (self.new ≡ self.old ++ number_bits width value) }
        ensures err { OnErr result (self.new ≡ self.old) }
    {
        if width <= self.spare {
            fill_tail(&mut self.bytes, self.spare, value, width);
            self.spare -= width;
            return Ok(());
        }
        self.put_any_bits(value, width)
    }

    /// The same of any number, apart.
    #[inline(never)]
    fn put_any_bits(&mut self, value: u64, width: u32) -> Result<(), AllocError>
        requires narrow { width ≤ 64 }
        requires fits { value < 2 ^ width }
        ensures ok { OnOk result (self.new ≡ self.old ++ number_bits width value) }
        ensures err { OnErr result (self.new ≡ self.old) }
    {
        if width <= self.spare {
            fill_tail(&mut self.bytes, self.spare, value, width);
            self.spare -= width;
            return Ok(());
        }
        self.bytes.reserve(8)?;
        if self.spare == 0 {
            self.spare = push_bits(&mut self.bytes, value, width);
            return Ok(());
        }
        let left = width - self.spare;
        fill_tail(&mut self.bytes, self.spare, value >> left, self.spare);
        self.spare = push_bits(&mut self.bytes, value & ((1u64 << left) - 1), left);
        Ok(())
    }

    /// Adds so many bytes of a number, the least significant first.
    #[inline(never)]
    fn put_bytes(&mut self, value: u64, count: u32) -> Result<(), AllocError>
        requires narrow { count ≤ 8 }
        requires whole { length self.old % 8 ≡ 0 }
        ensures ok { OnOk result (self.new ≡ self.old ++ bits (le_bytes count value)) }
        ensures err { OnErr result (self.new ≡ self.old) }
        ensures whole { length self.new % 8 ≡ 0 }
    {
        self.bytes.reserve(8)?;
        push_bytes(&mut self.bytes, value, count);
        Ok(())
    }

    /// Adds an Unsigned Integer (EXI 1.0, section 7.1.6) at any bit, in as few octets as spell it.
    ///
    /// # Errors
    ///
    /// Where there is no memory. The bits are then as before.
    #[inline]
    pub fn unsigned(&mut self, value: u128) -> Result<(), AllocError>
        ensures ok { OnOk result (self.new ≡ self.old ++ bits (shortest value)) }
        ensures err { OnErr result (self.new ≡ self.old) }
        ensures phase { length self.new % 8 ≡ length self.old % 8 }
    {
        // as many octets as the widest value has
        self.bytes.reserve(19)?;
        push_groups(&mut self.bytes, self.spare, value);
        Ok(())
    }

    /// Adds octets, eight bits each, at any bit.
    ///
    /// # Errors
    ///
    /// Where there is no memory. The bits are then as before.
    pub fn octets(&mut self, octets: &[u8]) -> Result<(), AllocError>
        ensures ok { OnOk result (self.new ≡ self.old ++ bits octets.now) }
        ensures err { OnErr result (self.new ≡ self.old) }
        ensures phase { length self.new % 8 ≡ length self.old % 8 }
    {
        // and for a whole word where the last of them are written
        self.bytes.reserve(octets.len() + 8)?;
        push_octets(&mut self.bytes, self.spare, octets);
        Ok(())
    }

    /// Adds the bits of another, which are whole bytes.
    ///
    /// # Errors
    ///
    /// Where there is no memory. The bits are then as before.
    pub fn append(&mut self, other: &BitOut) -> Result<(), AllocError>
        requires whole { length other.now % 8 ≡ 0 }
        ensures ok { OnOk result (self.new ≡ self.old ++ other.now) }
        ensures err { OnErr result (self.new ≡ self.old) }
        ensures phase { length self.new % 8 ≡ length self.old % 8 }
    {
        self.octets(&other.bytes)
    }

    /// Adds 0 bits up to a whole byte. Takes no memory.
    pub fn pad(&mut self)
        ensures bits { self.new ≡ padded self.old }
    {
        self.spare = 0;
    }

    /// How many bits there are.
    pub fn bits(&self) -> u128
        ensures count { result ≡ length self.now }
    {
        self.bytes.len() as u128 * 8 - u128::from(self.spare)
    }

    /// The bytes of the bits, with 0 bits after the last.
    pub fn bytes(&self) -> &[u8]
        ensures bits { bits result.now ≡ padded self.now }
    {
        &self.bytes
    }
}
