ghost use Rattle.std.specs.Prelude.{◌≡◌, ◌+◌, ◌++◌, ◌≤◌, OnOk, length, take};
ghost use Rattle.std.specs.Char.{IsScalar, encode_utf8};
ghost use Rattle.std.specs.Str.{IsUtf8, chars};

use exi_names::Txt;
use std::alloc::AllocError;

/// Octets at a place of a room; the answer is the place behind them.
#[inline(always)]
pub fn lay(room: &mut [u8], at: usize, octets: &[u8]) -> usize
    requires room { at + length octets.now ≤ length room.old }
    ensures behind { result ≡ at + length octets.now }
    ensures laid { take result room.new ≡ take at room.old ++ octets.now }
    ensures len { length room.new ≡ length room.old }
{
    let end = at + octets.len();
    room[at..end].copy_from_slice(octets);
    end
}

/// The UTF-8 of a character at a place of a room; the answer is the place behind it. Each length is a copy of its own.
#[inline(always)]
pub fn lay_char(room: &mut [u8], at: usize, c: char) -> usize
    requires room { at + 4 ≤ length room.old }
    ensures scalar { IsScalar c }
    ensures within { result ≤ at + 4 }
    ensures laid { take result room.new ≡ take at room.old ++ encode_utf8 c }
    ensures len { length room.new ≡ length room.old }
{
    let code = c as u32;
    if code < 0x80 {
        return lay(room, at, &[code as u8]);
    }
    let last = (0x80 + code % 64) as u8;
    if code < 0x800 {
        return lay(room, at, &[(0xC0 + code / 64) as u8, last]);
    }
    let third = (0x80 + code / 64 % 64) as u8;
    if code < 0x1_0000 {
        return lay(room, at, &[(0xE0 + code / 4096) as u8, third, last]);
    }
    let second = (0x80 + code / 4096 % 64) as u8;
    let first = (0xF0 + code / 262144) as u8;
    lay(room, at, &[first, second, third, last])
}

/// Adds the characters that stand in front in a room.
#[inline(never)]
pub fn push_room(text: &mut Txt, room: &[u8], end: usize) -> Result<(), AllocError>
    requires within { end ≤ length room.now }
    requires utf8 { IsUtf8 (take end room.now) }
    ensures ok { OnOk result (text.new ≡ text.old ++ chars (take end room.now)) }
{
    text.push_str(unsafe { std::str::from_utf8_unchecked(&room[..end]) })
}
