ghost use Rattle.std.specs.Prelude.{◌≡◌, option_copied};
ghost use Rattle.exi_digits.specs.Splits.{before, behind, is_either, is_mark};

/// What stands before the first byte that is one of the two, and what stands behind it. Where there is none,
/// all of the text stands before, and nothing behind.
pub fn split_at_either(text: &[u8], first: u8, second: u8) -> (&[u8], Option<&[u8]>)
    ensures before { result.0.now ≡ before (is_either first second) text.now }
    ensures behind { option_copied result.1 ≡ behind (is_either first second) text.now }
{
    for (place, byte) in text.iter().enumerate() {
        if *byte == first || *byte == second {
            return (&text[..place], Some(&text[place + 1..]));
        }
    }
    (text, None)
}

/// What stands before the first byte that is the mark, and what stands behind it. Where there is none, all of
/// the text stands before, and nothing behind.
pub fn split_at_mark(text: &[u8], mark: u8) -> (&[u8], Option<&[u8]>)
    ensures before { result.0.now ≡ before (is_mark mark) text.now }
    ensures behind { option_copied result.1 ≡ behind (is_mark mark) text.now }
{
    for (place, byte) in text.iter().enumerate() {
        if *byte == mark {
            return (&text[..place], Some(&text[place + 1..]));
        }
    }
    (text, None)
}
