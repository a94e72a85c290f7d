//! The room of a short text, looked at sixteen bytes at once.

ghost use Rattle.std.specs.Prelude.{◌≡◌, ◌+◌, ◌≤◌, ◌↔◌, true, length, take, IsTrue};
ghost use Rattle.exi_names.specs.Characters.{are_plain};
ghost use Rattle.exi_names.specs.Lanes.{ArePlain, AreSame, first_set};

use std::simd::prelude::*;

/// How many bytes are looked at at once.
const WIDE: usize = 16;

/// Where the last that are looked at at once begin in a room of 30.
const LAST: usize = 14;

/// The place of the lowest bit that is set, or the number of all that are looked at.
#[inline(always)]
fn first_set(mask: u64) -> usize
    ensures { result ≡ first_set mask 16 }
{
    if mask == 0 {
        WIDE
    } else {
        mask.trailing_zeros() as usize
    }
}

/// How many bytes from a place on, of as many as are looked at at once, two rooms have the same.
#[inline(always)]
fn same_lanes(bytes: &[u8], others: &[u8], at: usize) -> usize
    requires bytes { at + WIDE ≤ length bytes.now }
    requires others { at + WIDE ≤ length others.now }
    ensures { AreSame bytes.now others.now at 16 result }
{
    let lanes = u8x16::from_slice(&bytes[at..]);
    let others = u8x16::from_slice(&others[at..]);
    first_set(lanes.simd_ne(others).to_bitmask())
}

/// Whether two rooms of 30 bytes have the same so many in front.
#[inline(always)]
pub fn same_front(bytes: &[u8], others: &[u8], count: usize) -> bool
    requires bytes { length bytes.now ≡ 30 }
    requires others { length others.now ≡ 30 }
    requires few { count ≤ 30 }
    ensures { IsTrue result ↔ (take count bytes.now ≡ take count others.now) }
{
    let front = same_lanes(bytes, others, 0);
    if front < WIDE || count <= WIDE {
        return count <= front;
    }
    count <= LAST + same_lanes(bytes, others, LAST)
}

/// How many bytes from a place on, of as many as are looked at at once, are plain.
#[inline(always)]
fn plain_lanes(bytes: &[u8], at: usize) -> usize
    requires { at + WIDE ≤ length bytes.now }
    ensures { ArePlain bytes.now at 16 result }
{
    let lanes = u8x16::from_slice(&bytes[at..]);
    let marks = lanes.simd_eq(u8x16::splat(b'"')) | lanes.simd_eq(u8x16::splat(b'\\'));
    let others = lanes.simd_lt(u8x16::splat(b' ')) | lanes.simd_ge(u8x16::splat(0x7F));
    first_set((marks | others).to_bitmask())
}

/// True only where so many bytes in front of a room of 30 are plain.
#[inline(always)]
pub fn plain_front(bytes: &[u8], count: usize) -> bool
    requires room { length bytes.now ≡ 30 }
    requires few { count ≤ 30 }
    ensures { IsTrue result → are_plain (take count bytes.now) ≡ true }
{
    let front = plain_lanes(bytes, 0);
    if front < WIDE || count <= WIDE {
        return count <= front;
    }
    count <= LAST + plain_lanes(bytes, LAST)
}
