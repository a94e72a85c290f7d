//! Characters that are an integer, octets or a date, laid in a room of bytes.

ghost use Rattle.std.specs.Prelude.{◌≡◌, ◌≤◌, ◌<◌, ◌+◌, ◌*◌, ◌++◌, ◌∷◌, [], IfSome, codes, decimal, length, take, true};
ghost use Rattle.exi_lexical.specs.Binaries.{hex_text};
ghost use Rattle.exi_lexical.specs.Binaries.{hex_sign as sign};
ghost use Rattle.exi_names.specs.Seen.{binary, integer, moment, seen};
ghost use Rattle.exi_numerals.specs.Integers.{sign_text};
ghost use Rattle.exi_evtext.specs.Lines.{value_words};

use crate::lay::{lay_byte, lay_end, lay_run, lay_three};
use crate::lay_moment::lay_moment;
use exi_names::{Moment, Val, Whole};
use itoa::Buffer;

/// More bytes than an integer of 64 bits takes, with its word, its quotes and the line's end.
const ROOMY: usize = 64;

/// The sign of an integer.
#[inline(always)]
fn lay_sign(room: &mut [u8], at: usize, minus: bool) -> usize
    requires { at < length room.old }
    ensures within { result ≤ at + 1 }
    ensures laid { take result room.new ≡ take at room.old ++ sign_text minus }
    ensures len { length room.new ≡ length room.old }
{
    if minus { lay_byte(room, at, b'-') } else { at }
}

/// The digits of a number.
#[inline(always)]
fn lay_number(room: &mut [u8], at: usize, number: u64) -> usize
    requires { at + 40 ≤ length room.old }
    ensures within { result ≤ at + 40 }
    ensures laid { take result room.new ≡ take at room.old ++ decimal number }
    ensures len { length room.new ≡ length room.old }
{
    let mut buffer = Buffer::new();
    lay_run(room, at, buffer.format(number).as_bytes())
}

/// An integer as a value, with the line's end, where it has at most 64 bits.
#[inline(always)]
fn lay_integer(room: &mut [u8], at: usize, whole: Whole) -> Option<usize>
    requires { at ≤ length room.old }
    ensures len { length room.new ≡ length room.old }
    ensures more { IfSome result (λ end. end ≤ length room.new) }
    ensures laid { IfSome result (λ end. take end room.new ≡ take at room.old ++ (value_words (integer whole) ++ 10 ∷ [])) }
{
    if room.len() - at < ROOMY {
        return None;
    }
    let Ok(size) = u64::try_from(whole.size) else {
        return None;
    };
    let at = lay_three(room, at, b'i', b'n', b't');
    let at = lay_byte(room, at, b' ');
    let at = lay_byte(room, at, b'"');
    let at = lay_sign(room, at, whole.minus);
    let at = lay_number(room, at, size);
    Some(lay_end(room, at))
}

/// The digit of four bits, in upper case.
#[inline(always)]
fn hex_digit(digit: u8) -> u8
    requires four { digit < 16 }
    ensures { result ≡ sign digit }
{
    if digit < 10 {
        b'0' + digit
    } else {
        b'A' - 10 + digit
    }
}

/// Two digits for each octet.
#[inline(always)]
fn lay_digits(room: &mut [u8], at: usize, octets: &[u8]) -> usize
    requires { at + 2 * length octets.now ≤ length room.old }
    ensures behind { result ≡ at + 2 * length octets.now }
    ensures laid { take result room.new ≡ take at room.old ++ hex_text octets.now }
    ensures len { length room.new ≡ length room.old }
{
    let mut end = at;
    for octet in octets {
        end = lay_byte(room, end, hex_digit(*octet / 16));
        end = lay_byte(room, end, hex_digit(*octet % 16));
    }
    end
}

/// Octets as a value of hexadecimal digits, with the line's end.
#[inline(always)]
fn lay_hex(room: &mut [u8], at: usize, octets: &[u8]) -> Option<usize>
    requires { at ≤ length room.old }
    ensures len { length room.new ≡ length room.old }
    ensures more { IfSome result (λ end. end ≤ length room.new) }
    ensures laid { IfSome result (λ end. take end room.new ≡ take at room.old ++ (value_words (binary true octets.now) ++ 10 ∷ [])) }
{
    let left = room.len() - at;
    if left < ROOMY || octets.len() > (left - ROOMY) / 2 {
        return None;
    }
    let at = lay_three(room, at, b'h', b'e', b'x');
    let at = lay_byte(room, at, b' ');
    let at = lay_byte(room, at, b'"');
    let at = lay_digits(room, at, octets);
    Some(lay_end(room, at))
}

/// A date with a time as a value, with the line's end.
#[inline(always)]
fn lay_date(room: &mut [u8], at: usize, date: &Moment) -> Option<usize>
    requires { at ≤ length room.old }
    ensures len { length room.new ≡ length room.old }
    ensures more { IfSome result (λ end. end ≤ length room.new) }
    ensures laid { IfSome result (λ end. take end room.new ≡ take at room.old ++ (value_words (moment date.now) ++ 10 ∷ [])) }
{
    if room.len() - at < 2 * ROOMY {
        return None;
    }
    let at = lay_three(room, at, b'm', b'o', b'm');
    let at = lay_byte(room, at, b' ');
    let at = lay_byte(room, at, b'"');
    let at = lay_moment(room, at, date)?;
    Some(lay_end(room, at))
}

/// The line of characters that are no text, where these are an integer, octets or a date with a time.
#[inline(never)]
pub fn lay_typed(room: &mut [u8], value: &Val) -> Option<usize>
    requires { 3 ≤ length room.old }
    ensures len { length room.new ≡ length room.old }
    ensures more { IfSome result (λ end. end ≤ length room.new) }
    ensures laid { IfSome result (λ end. take end room.new ≡ codes "CH " ++ value_words (seen value.now) ++ 10 ∷ []) }
{
    let at = lay_three(room, 0, b'C', b'H', b' ');
    match value {
        Val::Int(whole) => lay_integer(room, at, *whole),
        Val::Bin { hex: true, octets } => lay_hex(room, at, octets.as_slice()),
        Val::Mom(date) => lay_date(room, at, date),
        _ => None,
    }
}
