ghost use Rattle.std.specs.Prelude.{◌≡◌, ◌+◌, ◌-◌, ◌*◌, ◌/◌, ◌^◌, ◌<◌, ◌≤◌};
ghost use Rattle.exi_text.specs.Words.{is_plain_word, no_tops};

/// Whether none of a word's octets has its top bit. It is one test of all eight.
#[inline(always)]
fn no_tops(word: u64) -> bool
    ensures { result ≡ no_tops word }
{
    word / 0x80 % 2 == 0
        && word / 0x8000 % 2 == 0
        && word / 0x800000 % 2 == 0
        && word / 0x80000000 % 2 == 0
        && word / 0x8000000000 % 2 == 0
        && word / 0x800000000000 % 2 == 0
        && word / 0x80000000000000 % 2 == 0
        && word / 0x8000000000000000 % 2 == 0
}

/// Whether each of a word's octets is surely plain: from 20 to 7F.
#[inline(always)]
pub fn is_plain_word(word: u64) -> bool
    ensures { result ≡ is_plain_word word }
{
    no_tops(word) && no_tops(0x9F9F9F9F9F9F9F9F - word)
}

/// The word with spaces for all but its first octets.
#[inline(always)]
pub fn filled(word: u64, most: u32) -> u64
    requires some { 1 ≤ most }
    requires few { most < 8 }
    ensures { result / 2 ^ (64 - 8 * most) ≡ word / 2 ^ (64 - 8 * most) }
{
    let others = 64 - 8 * most;
    (word >> others << others) + (0x2020202020202020u64 >> (8 * most))
}

/// How many octets of a word come before the first that is surely not plain, at most eight, as a quick look has it: an
/// octet above 7F has its top bit, and one below 20 has it where it is taken from 9F. What an octet takes away from the
/// one before it can make that look wrong for a control character, so the answer is to be tested.
#[inline(always)]
pub fn front_of(word: u64) -> u32 {
    let tops = (word | 0x9F9F9F9F9F9F9F9Fu64.wrapping_sub(word)) & 0x8080808080808080;
    tops.leading_zeros() / 8
}
