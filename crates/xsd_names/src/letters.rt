//! Texts as their characters: white space at their ends, and names without a colon.

ghost use Rattle.std.specs.Prelude.{◌≡◌, IfOk, option_copied};
ghost use Rattle.std.specs.Str.{chars};
ghost use Rattle.exi_digits.specs.Splits.{before, behind, is_mark};
ghost use Rattle.exi_lexical.specs.Spaces.{is_space, trimmed, without_back, without_front};
ghost use Rattle.xsd_names.specs.Names.{is_name_char, is_name_start, is_ncname};
ghost use Rattle.std.specs.List.{list_all};

use exi_names::Txt;
use std::alloc::{AllocError, Global};

/// The characters of a text.
///
/// # Errors
///
/// `AllocError` where memory is refused.
pub fn letters_of(alloc: Global, text: &Txt) -> Result<Vec<char>, AllocError>
    ensures { IfOk result (λ v. v.items ≡ text.now) }
{
    Ok(text.as_str().chars().collect(alloc)?)
}

/// The text of these characters.
///
/// # Errors
///
/// `AllocError` where memory is refused.
pub fn text_of(alloc: Global, letters: &[char]) -> Result<Txt, AllocError>
    ensures { IfOk result (λ t. t ≡ letters.now) }
{
    let mut text = Txt::new(alloc);
    for c in letters {
        text.push(*c)?;
    }
    Ok(text)
}

/// Whether this is a tab, a line feed, a carriage return or a space.
#[tactic(auto, unfolding(exi_lexical::specs::Spaces::is_space))]
fn is_white(c: char) -> bool
    ensures { result ≡ is_space c }
{
    matches!(c as u32, 9 | 10 | 13 | 32)
}

/// The characters from the first on that is no white space.
fn skip_front(letters: &[char]) -> &[char]
    ensures { result.now ≡ without_front letters.now }
{
    for (index, c) in letters.iter().enumerate() {
        if !is_white(*c) {
            return &letters[index..];
        }
    }
    &[]
}

/// The characters up to the last that is no white space.
fn skip_back(letters: &[char]) -> &[char]
    ensures { result.now ≡ without_back letters.now }
{
    let mut end = letters.len();
    while end > 0 && is_white(letters[end - 1]) {
        end -= 1;
    }
    &letters[..end]
}

/// The characters without the white space at either end.
pub fn trim(letters: &[char]) -> &[char]
    ensures { result.now ≡ trimmed letters.now }
{
    skip_back(skip_front(letters))
}

/// What stands before the first such character, all of them where there is none, and what stands behind it.
pub(crate) fn split_at_mark(letters: &[char], mark: char) -> (&[char], Option<&[char]>)
    ensures before { result.0.now ≡ before (is_mark mark) letters.now }
    ensures behind { option_copied result.1 ≡ behind (is_mark mark) letters.now }
{
    for (place, c) in letters.iter().enumerate() {
        if *c == mark {
            return (&letters[..place], Some(&letters[place + 1..]));
        }
    }
    (letters, None)
}

/// Whether a name can start with the character (XML 1.0, section 2.3, but for the colon).
#[tactic(auto, unfolding(crate::specs::Names::is_name_start))]
fn is_name_start(c: u32) -> bool
    ensures { result ≡ is_name_start c }
{
    matches!(
        c,
        65..=90
            | 95
            | 97..=122
            | 0xC0..=0xD6
            | 0xD8..=0xF6
            | 0xF8..=0x2FF
            | 0x370..=0x37D
            | 0x37F..=0x1FFF
            | 0x200C..=0x200D
            | 0x2070..=0x218F
            | 0x2C00..=0x2FEF
            | 0x3001..=0xD7FF
            | 0xF900..=0xFDCF
            | 0xFDF0..=0xFFFD
            | 0x1_0000..=0xE_FFFF
    )
}

/// Whether the character can stand in a name (XML 1.0, section 2.3, but for the colon).
#[tactic(auto, unfolding(crate::specs::Names::is_name_char))]
fn is_name_char(c: u32) -> bool
    ensures { result ≡ is_name_char c }
{
    is_name_start(c) || matches!(c, 45 | 46 | 48..=57 | 0xB7 | 0x300..=0x36F | 0x203F..=0x2040)
}

/// Whether each can stand in a name.
fn are_name_chars(letters: &[char]) -> bool
    ensures { result ≡ list_all is_name_char letters.now }
{
    for c in letters {
        if !is_name_char(*c as u32) {
            return false;
        }
    }
    true
}

/// Whether this is a name without a colon (Namespaces in XML 1.0, section 3).
pub fn is_ncname(letters: &[char]) -> bool
    ensures { result ≡ is_ncname letters.now }
{
    match letters {
        [first, others @ ..] => is_name_start(*first as u32) && are_name_chars(others),
        [] => false,
    }
}
