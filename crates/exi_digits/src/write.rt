ghost use Rattle.std.specs.Prelude.{◌≡◌, ◌++◌, OnOk, OnErr, decimal, string_bytes};
ghost use Rattle.exi_digits.specs.Digits.{fraction_of, padded};
ghost use Rattle.exi_digits.specs.Pushed.{HoldsFront};

use itoa::Buffer;
use std::alloc::AllocError;

/// Puts the number's digits at the end, without zeros in front.
///
/// # Errors
///
/// `AllocError` where memory is refused; the text is then unchanged.
pub fn push_number(out: &mut String, number: u128) -> Result<(), AllocError>
    ensures ok { OnOk result (string_bytes out.new ≡ string_bytes out.old ++ decimal number) }
    ensures err { OnErr result (string_bytes out.new ≡ string_bytes out.old) }
{
    let mut buffer = Buffer::new();
    out.push_str(buffer.format(number))
}

/// Puts the number's digits at the end, with zeros in front where they are fewer than `width`.
///
/// # Errors
///
/// `AllocError` where memory is refused; the text then has a front of what was to be added, perhaps none.
pub fn push_padded(out: &mut String, width: usize, number: u64) -> Result<(), AllocError>
    ensures ok { OnOk result (string_bytes out.new ≡ string_bytes out.old ++ padded width number) }
    ensures err { OnErr result (HoldsFront (string_bytes out.old) (padded width number) (string_bytes out.new)) }
{
    let mut buffer = Buffer::new();
    let digits = buffer.format(number);
    for _ in digits.len()..width {
        out.push('0')?;
    }
    out.push_str(digits)
}

/// Puts two digits at the end, with a zero in front where the number has one; a number of more digits has all.
///
/// # Errors
///
/// `AllocError` where memory is refused; the text then has a front of what was to be added, perhaps none.
pub fn push_two(out: &mut String, number: u16) -> Result<(), AllocError>
    ensures ok { OnOk result (string_bytes out.new ≡ string_bytes out.old ++ padded 2 number) }
    ensures err { OnErr result (HoldsFront (string_bytes out.old) (padded 2 number) (string_bytes out.new)) }
{
    if number >= 100 {
        return push_padded(out, 2, u64::from(number));
    }
    out.push(char::from(b'0' + (number / 10) as u8))?;
    out.push(char::from(b'0' + (number % 10) as u8))
}

/// Puts the digits of a fraction at the end, of which `back` is the number when they are read backwards: no
/// zeros at the end, but one digit at least.
///
/// # Errors
///
/// `AllocError` where memory is refused; the text then has a front of what was to be added, perhaps none.
pub fn push_fraction(out: &mut String, back: u128) -> Result<(), AllocError>
    ensures ok { OnOk result (string_bytes out.new ≡ string_bytes out.old ++ fraction_of back) }
    ensures err { OnErr result (HoldsFront (string_bytes out.old) (fraction_of back) (string_bytes out.new)) }
{
    let mut buffer = Buffer::new();
    for digit in buffer.format(back).as_bytes().iter().rev() {
        out.push(char::from(*digit))?;
    }
    Ok(())
}
