ghost use Rattle.std.specs.Prelude.{◌≡◌, ◌+◌, ◌*◌, ◌^◌, ◌<◌, ◌≤◌, length, reverse};
ghost use Rattle.exi_digits.specs.Digits.{back_in, digit_behind, kept, number_behind, number_in};

/// So many digits always fit a word of 64 bits.
const WORD_DIGITS: usize = 19;

/// The number that a digit makes behind a number of fewer digits than fit a word; none where the byte is no digit.
fn digit_behind(before: u64, digit: u8) -> Option<u64>
    requires low { before < 10 ^ 18 }
    ensures { result ≡ digit_behind before digit }
{
    if !digit.is_ascii_digit() {
        return None;
    }
    Some(before * 10 + u64::from(digit - b'0'))
}

/// The number of as many digits as fit a word, perhaps none; nothing where a byte is no digit.
fn word(digits: &[u8]) -> Option<u64>
    requires few { length digits.now ≤ 19 }
    ensures { result ≡ number_behind 0 digits.now }
{
    let mut number = 0;
    for digit in digits {
        number = digit_behind(number, *digit)?;
    }
    Some(number)
}

/// The same when they are read backwards.
fn word_back(digits: &[u8]) -> Option<u64>
    requires few { length digits.now ≤ 19 }
    ensures { result ≡ number_behind 0 (reverse digits.now) }
{
    let mut number = 0;
    for digit in digits.iter().rev() {
        number = digit_behind(number, *digit)?;
    }
    Some(number)
}

/// The number that a word of so many digits makes behind a number; none where 128 bits do not hold it.
fn joined(before: u128, word: u64, count: usize) -> Option<u128>
    requires few { count ≤ 19 }
    ensures { result ≡ kept (before * 10 ^ count + word) }
{
    if before == 0 {
        return Some(u128::from(word));
    }
    before
        .checked_mul(10u128.pow(count as u32))?
        .checked_add(u128::from(word))
}

/// The number that digits, perhaps none, make behind others of the number `before`: `05` behind 12 makes 1205.
/// Nothing where a byte is no digit, or the number is not below 2^128. They are read a word at a time.
pub fn number_behind(before: u128, digits: &[u8]) -> Option<u128>
    ensures { result ≡ number_behind before digits.now }
{
    let mut number = before;
    let mut left = digits;
    while !left.is_empty() {
        let (front, behind) = left.split_at(left.len().min(WORD_DIGITS));
        number = joined(number, word(front)?, front.len())?;
        left = behind;
    }
    Some(number)
}

/// The number of these digits, zeros in front allowed. Nothing where there is none, where a byte is no digit,
/// or the number is not below 2^128.
pub fn number(digits: &[u8]) -> Option<u128>
    ensures { result ≡ number_in digits.now }
{
    if digits.is_empty() {
        return None;
    }
    number_behind(0, digits)
}

/// The number of a fraction's digits, perhaps none, when they are read backwards; so zeros at the end do not
/// count, however many. Nothing where a byte is no digit, or the number is not below 2^128.
pub fn back(digits: &[u8]) -> Option<u128>
    ensures { result ≡ back_in digits.now }
{
    let mut number = 0;
    let mut left = digits;
    while !left.is_empty() {
        let (front, behind) = left.split_at(left.len() - left.len().min(WORD_DIGITS));
        number = joined(number, word_back(behind)?, behind.len())?;
        left = front;
    }
    Some(number)
}
