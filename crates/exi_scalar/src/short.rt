//! An Unsigned Integer, of which the shorter ones are taken as one word.

ghost use Rattle.std.specs.Prelude.{◌≡◌, ◌<◌, ◌%◌, ◌^◌, Ok, MatchOption};
ghost use Rattle.exi_bits.specs.Unsigned.{Reads, unsigned_at};

use exi_bits::{Align, BitIn, Fault};

/// Takes an Unsigned Integer of at most three octets where 24 bits remain. The place is as before after
/// a `None`.
#[inline(always)]
fn short_unsigned(input: &mut BitIn<'_>) -> Option<u64>
    ensures read { MatchOption result (input.new ≡ input.old) (λ v. unsigned_at input.old ≡ Ok (v, input.new)) }
    ensures bytes { input.new.bytes ≡ input.old.bytes }
    ensures phase { input.new.place % 8 ≡ input.old.place % 8 }
{
    let bit = input.at();
    let Some(word) = input.take(24, Align::Bits) else {
        return None;
    };
    let past = input.at();
    let first = word / 65536 % 256;
    let second = word / 256 % 256;
    let third = word % 256;
    if first < 128 {
        input.go_to_bit(past - 16);
        return Some(first);
    }
    if second < 128 {
        input.go_to_bit(past - 8);
        return Some(first - 128 + 128 * second);
    }
    if third < 128 {
        return Some(first - 128 + 128 * (second - 128 + 128 * third));
    }
    input.go_to_bit(bit);
    None
}

/// Takes an Unsigned Integer octet by octet, with its answer in a room that is made on this way alone.
#[inline(always)]
pub fn long_unsigned(input: &mut BitIn<'_>) -> Result<u128, Fault>
    ensures read { Reads (λ x. x) result input.old input.new (unsigned_at input.old) }
    ensures bytes { input.new.bytes ≡ input.old.bytes }
    ensures phase { input.new.place % 8 ≡ input.old.place % 8 }
{
    match input.unsigned() {
        Ok(value) => Ok(value),
        Err(fault) => Err(fault),
    }
}

/// Reads an Unsigned Integer (EXI 1.0, section 7.1.6) at any bit, as [`BitIn::unsigned`] does: one of at
/// most three octets as one word. It takes no memory.
///
/// # Errors
///
/// The place is then as before. At the first bit of the integer:
///
/// - `Short` where the bits end before its last octet does.
/// - `TooWide` where it has more than 19 octets or is 2^128 or more.
#[inline(always)]
pub fn read_unsigned(input: &mut BitIn<'_>) -> Result<u128, Fault>
    ensures read { Reads (λ x. x) result input.old input.new (unsigned_at input.old) }
    ensures bytes { input.new.bytes ≡ input.old.bytes }
    ensures phase { input.new.place % 8 ≡ input.old.place % 8 }
{
    if let Some(value) = short_unsigned(input) {
        return Ok(u128::from(value));
    }
    long_unsigned(input)
}
