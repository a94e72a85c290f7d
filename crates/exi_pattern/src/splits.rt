//! A pattern at the first character of a kind.

ghost use Rattle.std.specs.Prelude.{◌≡◌, option_copied};
ghost use Rattle.exi_digits.specs.Splits.{before, behind, is_mark};

/// What stands before the first such character, all of the text where there is none, and what stands behind it.
pub(crate) fn split_at_mark(text: &[char], mark: char) -> (&[char], Option<&[char]>)
    ensures before { result.0.now ≡ before (is_mark mark) text.now }
    ensures behind { option_copied result.1 ≡ behind (is_mark mark) text.now }
{
    for (place, c) in text.iter().enumerate() {
        if *c == mark {
            return (&text[..place], Some(&text[place + 1..]));
        }
    }
    (text, None)
}
