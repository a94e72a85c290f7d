//! White space in the text of a value.

ghost use Rattle.std.specs.Prelude.{◌≡◌, true, ◌∷◌, ◌++◌, [], ◌<◌, length, MatchOption, IfSome};
ghost use Rattle.std.specs.Str.{IsUtf8, chars};
ghost use Rattle.exi_lexical.specs.Spaces.{IsBehindWord, has_no_space, is_space, without_front, without_back, trimmed, words};

/// Whether a byte is a tab, a line feed, a carriage return or a space.
#[tactic(auto, unfolding(crate::specs::Spaces::is_space))]
pub fn is_white(byte: u8) -> bool
    ensures { result ≡ is_space byte }
{
    matches!(byte, b'\t' | b'\n' | b'\r' | b' ')
}

/// The text from its first character on that is no white space.
pub fn skip_front(text: &str) -> &str
    ensures { result.now ≡ without_front text.now }
{
    let bytes = text.as_bytes();
    for (index, byte) in bytes.iter().enumerate() {
        if !is_white(*byte) {
            return text.split_at(index).1;
        }
    }
    ""
}

/// The text up to its last character that is no white space.
pub fn skip_back(text: &str) -> &str
    ensures { result.now ≡ without_back text.now }
{
    let bytes = text.as_bytes();
    let mut end = bytes.len();
    while end > 0 && is_white(bytes[end - 1]) {
        end -= 1;
    }
    text.split_at(end).0
}

/// The text without the white space at either end.
pub fn trim(text: &str) -> &str
    ensures { chars result.now ≡ trimmed (chars text.now) }
{
    skip_back(skip_front(text))
}

/// The text up to its first white space, and what follows.
fn cut(text: &str) -> (&str, &str)
    ensures parts { text.now ≡ result.0.now ++ result.1.now }
    ensures word { has_no_space result.0.now ≡ true }
    ensures rest { IsBehindWord result.1.now }
    ensures texts { IsUtf8 result.0.now × IsUtf8 result.1.now }
{
    let bytes = text.as_bytes();
    for (index, byte) in bytes.iter().enumerate() {
        if is_white(*byte) {
            return text.split_at(index);
        }
    }
    (text, "")
}

/// The first word and what follows it, and nothing where there is only white space.
pub fn next_word(text: &str) -> Option<(&str, &str)>
    ensures words { MatchOption result (words (chars text.now) ≡ []) (λ p. words (chars text.now) ≡ chars p.0.now ∷ words (chars p.1.now)) }
    ensures shorter { IfSome result (λ p. length p.1.now < length text.now) }
    ensures texts { IfSome result (λ p. IsUtf8 p.1.now) }
{
    let rest = skip_front(text);
    if rest.is_empty() {
        return None;
    }
    Some(cut(rest))
}
