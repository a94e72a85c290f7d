//! Wildcards that list a namespace other than the target.

ghost use Rattle.std.specs.Prelude.{◌≡◌, IfOk};
ghost use Rattle.std.specs.Str.{chars};
ghost use Rattle.std.specs.List.{list_any};
ghost use Rattle.xsd_wildcards.specs.Wildcards.{is_foreign_wild, is_other_uri, lists_other};

use crate::words::{is_any, is_local_word, is_other, is_target_word, namespace_words};
use exi_names::Txt;
use std::alloc::{AllocError, Global};
use xsd_nodes::{Part, is_among_at, is_text, target};
use xsd_tree::Node;

/// Whether the word lists a namespace other than the target.
fn is_other_uri(own: &str, word: &Txt) -> bool
    ensures { result ≡ is_other_uri (chars own.now) word.now }
{
    !(is_target_word(word) || is_local_word(word) || is_text(word, own))
}

/// Whether a word lists a namespace other than the target.
fn has_other_uri(own: &str, words: &[Txt]) -> bool
    ensures { result ≡ list_any (is_other_uri (chars own.now)) words.now }
{
    for word in words {
        if is_other_uri(own, word) {
            return true;
        }
    }
    false
}

/// Whether a wildcard of these words lists a namespace other than the target.
fn lists_other(own: &str, words: &[Txt]) -> bool
    ensures { result ≡ lists_other (chars own.now) words.now }
{
    !is_any(words) && !is_other(words) && has_other_uri(own, words)
}

/// Whether the element at a place is a wildcard that lists a namespace other than the target.
///
/// # Errors
///
/// `AllocError` where memory is refused.
pub fn is_foreign_wild(alloc: Global, nodes: &[Node], place: u32) -> Result<bool, AllocError>
    ensures { IfOk result (λ b. b ≡ is_foreign_wild nodes.now place) }
{
    if is_among_at(nodes, &[Part::Any, Part::AnyAttribute], place) {
        let words = namespace_words(alloc, nodes, place)?;
        Ok(lists_other(target(nodes, place), words.as_slice()))
    } else {
        Ok(false)
    }
}
