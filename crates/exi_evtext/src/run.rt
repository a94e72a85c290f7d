//! Bytes of a line, and those that stand for themselves between quotes, counted sixteen at once.

ghost use Rattle.std.specs.Prelude.{◌≡◌, ◌+◌, ◌≤◌, length, option_copied};
ghost use Rattle.exi_digits.specs.Splits.{before, behind, is_mark};
ghost use Rattle.exi_evtext.specs.Parsing.{run_width, stops_run};
ghost use Rattle.exi_evtext.specs.Plain.{AllPass, IsRunIn, IsWidth, PassesIn, first_set, is_inside_line, is_inside_run, is_plain};

use std::simd::prelude::*;

/// How many bytes are looked at at once.
pub const WIDE: usize = 16;

/// The place of the lowest bit that is set, or the number of all that are looked at.
#[inline(always)]
fn first_set(mask: u64) -> usize
    ensures { result ≡ first_set mask 16 }
{
    if mask == 0 {
        WIDE
    } else {
        mask.trailing_zeros() as usize
    }
}

/// How many bytes from this place on are plain, of as many as are looked at at once.
#[inline(always)]
pub fn plain_lanes(bytes: &[u8], at: usize) -> usize
    requires { at + WIDE ≤ length bytes.now }
    ensures { PassesIn is_plain bytes.now at 16 result }
{
    let lanes = u8x16::from_slice(&bytes[at..]);
    let marks = lanes.simd_eq(u8x16::splat(b'"')) | lanes.simd_eq(u8x16::splat(b'\\'));
    let others = lanes.simd_lt(u8x16::splat(b' ')) | lanes.simd_ge(u8x16::splat(127));
    first_set((marks | others).to_bitmask())
}

/// Whether a byte is ASCII that stands for itself between quotes.
#[inline(always)]
fn is_plain(byte: u8) -> bool
    ensures { result ≡ is_plain byte }
{
    byte >= b' ' && byte < 127 && byte != b'"' && byte != b'\\'
}

/// The end of the plain bytes from this place on, one after another.
#[cold]
#[inline(never)]
fn plain_end(bytes: &[u8], from: usize) -> usize
    requires within { from ≤ length bytes.now }
    requires plain { AllPass is_plain bytes.now 0 from }
    ensures within { result ≤ length bytes.now }
    ensures plain { AllPass is_plain bytes.now 0 result }
{
    let mut end = from;
    while end < bytes.len() && is_plain(bytes[end]) {
        end += 1;
    }
    end
}

/// How many bytes in front are ASCII that stands for itself.
#[inline(always)]
pub fn plain_width(bytes: &[u8]) -> usize
    ensures within { result ≤ length bytes.now }
    ensures plain { AllPass is_plain bytes.now 0 result }
{
    let mut done = 0;
    while bytes.len() - done >= WIDE {
        let run = plain_lanes(bytes, done);
        done += run;
        if run < WIDE {
            return done;
        }
    }
    plain_end(bytes, done)
}

/// How many bytes from this place on, of as many as are looked at at once, stand before a line feed.
#[inline(always)]
fn line_lanes(bytes: &[u8], at: usize) -> usize
    requires { at + WIDE ≤ length bytes.now }
    ensures { IsRunIn is_inside_line bytes.now at 16 result }
{
    let lanes = u8x16::from_slice(&bytes[at..]);
    first_set(lanes.simd_eq(u8x16::splat(b'\n')).to_bitmask())
}

/// The place of the first line feed from this place on, or the end, one byte after another.
fn line_end(bytes: &[u8], from: usize) -> usize
    requires within { from ≤ length bytes.now }
    requires pass { AllPass is_inside_line bytes.now 0 from }
    ensures { IsWidth is_inside_line bytes.now result }
{
    let mut end = from;
    while end < bytes.len() && bytes[end] != b'\n' {
        end += 1;
    }
    end
}

/// How many bytes stand before the first line feed.
fn line_width(bytes: &[u8]) -> usize
    ensures { IsWidth is_inside_line bytes.now result }
{
    let mut done = 0;
    while bytes.len() - done >= WIDE {
        let run = line_lanes(bytes, done);
        done += run;
        if run < WIDE {
            return done;
        }
    }
    line_end(bytes, done)
}

/// What stands before the first line feed, and what stands behind it. Where there is none, all stands before, and nothing
/// behind.
pub fn split_line(bytes: &[u8]) -> (&[u8], Option<&[u8]>)
    ensures before { result.0.now ≡ before (is_mark 10) bytes.now }
    ensures behind { option_copied result.1 ≡ behind (is_mark 10) bytes.now }
{
    let (line, rest) = bytes.split_at(line_width(bytes));
    match rest.split_first() {
        Some((_, behind)) => (line, Some(behind)),
        None => (line, None),
    }
}

/// How many bytes from this place on, of as many as are looked at at once, stand for themselves between quotes.
#[inline(always)]
fn run_lanes(bytes: &[u8], at: usize) -> usize
    requires { at + WIDE ≤ length bytes.now }
    ensures { IsRunIn is_inside_run bytes.now at 16 result }
{
    let lanes = u8x16::from_slice(&bytes[at..]);
    let marks = lanes.simd_eq(u8x16::splat(b'"')) | lanes.simd_eq(u8x16::splat(b'\\'));
    let ends = lanes.simd_eq(u8x16::splat(b'\n')) | lanes.simd_eq(u8x16::splat(b'\r'));
    let tabs = lanes.simd_eq(u8x16::splat(b'\t'));
    first_set((marks | ends | tabs).to_bitmask())
}

/// Whether a byte doesn't stand for itself between quotes.
fn stops_run(byte: u8) -> bool
    ensures { result ≡ stops_run byte }
{
    matches!(byte, b'"' | b'\\' | b'\n' | b'\r' | b'\t')
}

/// The end of the bytes that stand for themselves, one after another.
fn run_end(bytes: &[u8], from: usize) -> usize
    requires within { from ≤ length bytes.now }
    requires pass { AllPass is_inside_run bytes.now 0 from }
    ensures { IsWidth is_inside_run bytes.now result }
{
    let mut end = from;
    while end < bytes.len() && !stops_run(bytes[end]) {
        end += 1;
    }
    end
}

/// How many bytes in front stand for themselves between quotes.
pub fn run_width(bytes: &[u8]) -> usize
    ensures width { result ≡ run_width bytes.now }
    ensures within { result ≤ length bytes.now }
{
    let mut done = 0;
    while bytes.len() - done >= WIDE {
        let run = run_lanes(bytes, done);
        done += run;
        if run < WIDE {
            return done;
        }
    }
    run_end(bytes, done)
}
