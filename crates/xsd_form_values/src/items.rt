//! The words of a text, and whether each has a value.

ghost use Rattle.std.specs.Prelude.{◌≡◌, IfOk, map};
ghost use Rattle.std.specs.List.{list_all};
ghost use Rattle.std.specs.Option.{is_some};
ghost use Rattle.exi_names.specs.Datatypes.{represented};
ghost use Rattle.exi_lexical.specs.Spaces.{is_space, words};
ghost use Rattle.exi_lexical.specs.Values.{list_value, value};

use exi_lexical::has_value;
use exi_names::{Datatype, MOST_ITEMS, Txt};
use std::alloc::{AllocError, Global};
use xsd_names::{letters_of, text_of};

/// Whether this is a tab, a line feed, a carriage return or a space.
#[tactic(auto, unfolding(exi_lexical::specs::Spaces::is_space))]
fn is_white(c: char) -> bool
    ensures { result ≡ is_space c }
{
    matches!(c as u32, 9 | 10 | 13 | 32)
}

/// What stands between white space.
fn words_of(alloc: Global, letters: &[char]) -> Result<Vec<&[char]>, AllocError>
    ensures { IfOk result (λ v. map (λ w. w.now) v.items ≡ words letters.now) }
{
    letters
        .split(|c| is_white(*c))
        .filter(|word| !word.is_empty())
        .collect(alloc)
}

/// Whether each word has a value under the datatype.
fn each_has(alloc: Global, item: &Datatype, words: &[&[char]]) -> Result<bool, AllocError>
    ensures { IfOk result (λ each. each ≡ list_all (λ w. is_some (value (represented item.now) w)) (map (λ w. w.now) words.now)) }
{
    for word in words {
        let text = text_of(alloc, word)?;
        if !has_value(alloc, item, &text)? {
            return Ok(false);
        }
    }
    Ok(true)
}

/// Whether the text is a list of values of the datatype.
pub(crate) fn has_items(alloc: Global, item: &Datatype, text: &Txt) -> Result<bool, AllocError>
    ensures { IfOk result (λ has. has ≡ is_some (list_value (λ w. value (represented item.now) w) text.now)) }
{
    let letters = letters_of(alloc, text)?;
    let words = words_of(alloc, letters.as_slice())?;
    if words.len() > MOST_ITEMS {
        return Ok(false);
    }
    each_has(alloc, item, words.as_slice())
}
