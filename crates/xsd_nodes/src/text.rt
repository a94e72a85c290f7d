ghost use Rattle.std.specs.Prelude.{◌≡◌};
ghost use Rattle.std.specs.Str.{bytes_eq, chars};

use exi_names::Txt;

/// Whether the text is this word.
pub fn is_text(text: &Txt, word: &str) -> bool
    ensures { result ≡ bytes_eq text.now (chars word.now) }
{
    text.as_str() == word
}
