//! The words of an attribute, and what they are.

ghost use Rattle.std.specs.Prelude.{◌≡◌, [], ◌∷◌, ◌++◌, IfOk, OnOk, codes, filter};
ghost use Rattle.std.specs.Str.{bytes_eq};
ghost use Rattle.exi_lexical.specs.Spaces.{is_some_text, is_space, words};
ghost use Rattle.xsd_wildcards.specs.Wildcards.{is_any, is_in, is_other, namespace_words};

use exi_names::{Txt, TxtList};
use std::alloc::{AllocError, Global};
use xsd_names::letters_of;
use xsd_nodes::{AttributeName, is_text, text_at};
use xsd_tree::Node;

/// Whether this is a tab, a line feed, a carriage return or a space.
#[tactic(auto, unfolding(exi_lexical::specs::Spaces::is_space))]
fn is_white(c: char) -> bool
    ensures { result ≡ is_space c }
{
    matches!(c as u32, 9 | 10 | 13 | 32)
}

/// Adds the word, where it has a character.
fn end_word(words: &mut TxtList, word: Txt) -> Result<(), AllocError>
    ensures { OnOk result (words.new ≡ words.old ++ filter is_some_text (word ∷ [])) }
{
    if word.count() > 0 {
        words.push(word)?;
    }
    Ok(())
}

/// What stands between white space.
fn words_in(alloc: Global, letters: &[char]) -> Result<TxtList, AllocError>
    ensures { IfOk result (λ l. l ≡ words letters.now) }
{
    let mut words = TxtList::new(alloc);
    let mut word = Txt::new(alloc);
    for c in letters {
        if is_white(*c) {
            end_word(&mut words, word)?;
            word = Txt::new(alloc);
        } else {
            word.push(*c)?;
        }
    }
    end_word(&mut words, word)?;
    Ok(words)
}

/// The words of the attribute `namespace` of the element at a place.
pub(crate) fn namespace_words(
    alloc: Global,
    nodes: &[Node],
    place: u32,
) -> Result<TxtList, AllocError>
    ensures { IfOk result (λ l. l ≡ namespace_words nodes.now place) }
{
    match text_at(nodes, AttributeName::Namespace, place) {
        Some(text) => {
            let letters = letters_of(alloc, text)?;
            words_in(alloc, letters.as_slice())
        }
        None => words_in(alloc, &[]),
    }
}

/// Whether the text is one of these.
pub(crate) fn is_in(texts: &[Txt], text: &Txt) -> bool
    ensures { result ≡ is_in texts.now text.now }
{
    for one in texts {
        if text.same(one) {
            return true;
        }
    }
    false
}

/// Whether the word is `##targetNamespace`.
pub(crate) fn is_target_word(word: &Txt) -> bool
    ensures { result ≡ bytes_eq word.now (codes "##targetNamespace") }
{
    is_text(word, "##targetNamespace")
}

/// Whether the word is `##local`.
pub(crate) fn is_local_word(word: &Txt) -> bool
    ensures { result ≡ bytes_eq word.now (codes "##local") }
{
    is_text(word, "##local")
}

/// Whether the word is `##any`.
fn is_any_word(word: &Txt) -> bool
    ensures { result ≡ bytes_eq word.now (codes "##any") }
{
    is_text(word, "##any")
}

/// Whether the word is `##other`.
fn is_other_word(word: &Txt) -> bool
    ensures { result ≡ bytes_eq word.now (codes "##other") }
{
    is_text(word, "##other")
}

/// Whether there is no word at all, or `##any` alone.
pub(crate) fn is_any(words: &[Txt]) -> bool
    ensures { result ≡ is_any words.now }
{
    match words {
        [] => true,
        [word] => is_any_word(word),
        [_, _, ..] => false,
    }
}

/// Whether there is `##other` alone.
pub(crate) fn is_other(words: &[Txt]) -> bool
    ensures { result ≡ is_other words.now }
{
    match words {
        [] => false,
        [word] => is_other_word(word),
        [_, _, ..] => false,
    }
}
