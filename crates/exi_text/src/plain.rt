ghost use Rattle.std.specs.Prelude.{◌≡◌, ℕ, ◌+◌, ◌++◌, ◌%◌, ◌<◌, ◌≤◌, Ok, true, not, length, get_or, position, take};
ghost use Rattle.std.specs.Int.{to_be_bytes, w64};
ghost use Rattle.std.specs.Str.{IsAscii};
ghost use Rattle.exi_bits.specs.Bits.{octets_of, rest};
ghost use Rattle.exi_bits.specs.Repeat.{times};
ghost use Rattle.exi_names.specs.Characters.{between};
ghost use Rattle.exi_text.specs.Literals.{code_at, is_plain};

use crate::room::lay;
use crate::word::{filled, front_of, is_plain_word};
use exi_bits::{Align, BitIn};

/// The place of the first octet that is not surely plain.
fn other_place(octets: &[u8]) -> Option<usize>
    ensures { result ≡ position (λ octet. not (between 0x20 0x7F octet)) octets.now }
{
    octets
        .iter()
        .position(|octet| !matches!(*octet, 0x20..=0x7F))
}

/// How many surely plain octets there are in a word before any other, at most so many, looked at one by one.
#[cold]
#[inline(never)]
fn plain_front(word: u64, most: u32) -> u32
    ensures few { result ≤ most }
    ensures plain { (i : ℕ) → i < result → is_plain (get_or (to_be_bytes w64 word) i 0) ≡ true }
{
    let octets = word.to_be_bytes();
    let most = most as usize;
    match other_place(&octets) {
        Some(place) => place.min(most) as u32,
        None => octets.len().min(most) as u32,
    }
}

/// How many surely plain octets there are in a word before any other, at most so many and seven. Where all that are
/// asked for are plain, or the quick look at the word is right, a test of all of them at once tells it; the look is
/// right but for a few control characters.
#[inline(always)]
fn plain_run(word: u64, most: u64) -> u32
    requires some { 0 < most }
    ensures few { result ≤ most }
    ensures part { result < 8 }
    ensures plain { (i : ℕ) → i < result → is_plain (get_or (to_be_bytes w64 word) i 0) ≡ true }
{
    let most = most.min(8) as u32;
    if most < 8 && is_plain_word(filled(word, most)) {
        return most;
    }
    let run = front_of(word).min(most).min(7);
    if run == 0 {
        return 0;
    }
    if is_plain_word(filled(word, run)) {
        return run;
    }
    plain_front(word, most.min(7))
}

/// Lays plain characters that stand at the place into a room, and answers how many: at most eight, which a word holds,
/// and at most so many. 0 where the word does not surely begin with one, or fewer bits than a word has are left.
/// Behind them the room may change.
#[inline(always)]
pub fn lay_plain(input: &mut BitIn<'_>, room: &mut [u8], at: usize, most: u64) -> u64
    requires room { at + 8 ≤ length room.old }
    requires some { 0 < most }
    ensures few { result ≤ most }
    ensures word { result ≤ 8 }
    ensures laid { take (at + result) room.new ≡ take at room.old ++ octets_of result (rest input.old) }
    ensures ascii { IsAscii (octets_of result (rest input.old)) }
    ensures read { times code_at result input.old ≡ Ok (octets_of result (rest input.old), input.new) }
    ensures len { length room.new ≡ length room.old }
    ensures bytes { input.new.bytes ≡ input.old.bytes }
    ensures phase { input.new.place % 8 ≡ input.old.place % 8 }
{
    let Some(word) = input.take(64, Align::Bits) else {
        return 0;
    };
    lay(room, at, &word.to_be_bytes());
    if most >= 8 && is_plain_word(word) {
        return 8;
    }
    let run = u64::from(plain_run(word, most));
    let behind = input.at();
    input.go_to_bit(behind - (8 - run) * 8);
    run
}
