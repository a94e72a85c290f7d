//! Characters of UTF-8 counted sixteen bytes at once.

ghost use Rattle.std.specs.Prelude.{◌≡◌, ◌≤◌, ◌||◌, nat_lt, nat_le, count_by, length};
ghost use Rattle.std.specs.Str.{chars};

/// How many characters there are.
pub(crate) fn count_chars(text: &str) -> u64
    ensures { result ≡ length (chars text.now) }
{
    count_begins(text.as_bytes()) as u64
}

/// How many bytes are counted at once.
const WIDE: usize = 16;

/// How many of a few bytes begin a character in UTF-8. Counts of one byte each are added side by side.
#[inline(always)]
fn count_few(bytes: &[u8]) -> u8
    requires few { length bytes.now ≤ 16 }
    ensures { result ≡ count_by (λ byte. nat_lt byte 0x80 || nat_le 0xC0 byte) bytes.now }
{
    let mut count: u8 = 0;
    for byte in bytes {
        count += u8::from(*byte < 0x80 || 0xC0 <= *byte);
    }
    count
}

/// How many of fewer than eight bytes begin a character in UTF-8.
#[inline(always)]
fn count_under_eight(bytes: &[u8]) -> usize
    requires few { length bytes.now ≤ 7 }
    ensures { result ≡ count_by (λ byte. nat_lt byte 0x80 || nat_le 0xC0 byte) bytes.now }
{
    if bytes.len() < 4 {
        return usize::from(count_few(bytes));
    }
    let (front, rest) = bytes.split_at(4);
    usize::from(count_few(front)) + usize::from(count_few(rest))
}

/// How many of fewer than sixteen bytes begin a character in UTF-8: eight, four and at most three are counted apart, so
/// that those of a short text are soon counted too.
#[inline(always)]
fn count_under_sixteen(bytes: &[u8]) -> usize
    requires few { length bytes.now ≤ 15 }
    ensures { result ≡ count_by (λ byte. nat_lt byte 0x80 || nat_le 0xC0 byte) bytes.now }
{
    if bytes.len() < 8 {
        return count_under_eight(bytes);
    }
    let (front, rest) = bytes.split_at(8);
    usize::from(count_few(front)) + count_under_eight(rest)
}

/// How many of the bytes begin a character in UTF-8.
fn count_begins(bytes: &[u8]) -> usize
    ensures { result ≡ count_by (λ byte. nat_lt byte 0x80 || nat_le 0xC0 byte) bytes.now }
{
    let mut count = 0;
    let mut left = bytes;
    while left.len() >= WIDE {
        let (front, rest) = left.split_at(WIDE);
        count += usize::from(count_few(front));
        left = rest;
    }
    count + count_under_sixteen(left)
}
