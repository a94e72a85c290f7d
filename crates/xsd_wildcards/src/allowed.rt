//! What a wildcard allows.

ghost use Rattle.std.specs.Prelude.{◌≡◌, [], IfOk};
ghost use Rattle.std.specs.Str.{chars};
ghost use Rattle.xsd_wildcards.specs.Wildcards.{allowed_at, allowed_by, listed, listed_onto};

use crate::words::{is_any, is_in, is_local_word, is_other, is_target_word, namespace_words};
use exi_names::{Txt, TxtList};
use std::alloc::{AllocError, Global};
use xsd_nodes::target;
use xsd_tree::Node;

/// What a wildcard allows.
#[derive(Debug, Drop)]
pub enum Allowed {
    /// Any namespace, and none at all.
    Every,
    /// Any namespace but this one; none at all is not allowed.
    OtherThan(Txt),
    /// These namespaces, without repeats; the empty text stands for none at all.
    These(TxtList),
}

impl Allowed {
    /// A copy.
    ///
    /// # Errors
    ///
    /// `AllocError` where memory is refused.
    pub fn copy(&self, alloc: Global) -> Result<Allowed, AllocError>
        ensures { IfOk result (λ a. a ≡ self.now) }
    {
        match self {
            Allowed::Every => Ok(Allowed::Every),
            Allowed::OtherThan(uri) => Ok(Allowed::OtherThan(uri.copy()?)),
            Allowed::These(uris) => Ok(Allowed::These(uris.copy(alloc)?)),
        }
    }
}

/// What a word lists in a schema of this target namespace.
fn listed(alloc: Global, own: &str, word: &Txt) -> Result<Txt, AllocError>
    ensures { IfOk result (λ t. t ≡ listed (chars own.now) word.now) }
{
    if is_target_word(word) {
        Txt::of(alloc, own)
    } else if is_local_word(word) {
        Ok(Txt::new(alloc))
    } else {
        word.copy()
    }
}

/// What the words list in a schema of this target namespace, without repeats.
fn all_listed(alloc: Global, own: &str, words: &[Txt]) -> Result<TxtList, AllocError>
    ensures { IfOk result (λ l. l ≡ listed_onto (chars own.now) [] words.now) }
{
    let mut uris = TxtList::new(alloc);
    for word in words {
        let uri = listed(alloc, own, word)?;
        if !is_in(uris.as_slice(), &uri) {
            uris.push(uri)?;
        }
    }
    Ok(uris)
}

/// What a wildcard of these words allows in a schema of this target namespace.
fn allowed_by(alloc: Global, own: &str, words: &[Txt]) -> Result<Allowed, AllocError>
    ensures { IfOk result (λ a. a ≡ allowed_by (chars own.now) words.now) }
{
    if is_any(words) {
        Ok(Allowed::Every)
    } else if is_other(words) {
        Ok(Allowed::OtherThan(Txt::of(alloc, own)?))
    } else {
        Ok(Allowed::These(all_listed(alloc, own, words)?))
    }
}

/// What the wildcard at a place allows.
///
/// # Errors
///
/// `AllocError` where memory is refused.
pub fn allowed_at(alloc: Global, nodes: &[Node], place: u32) -> Result<Allowed, AllocError>
    ensures { IfOk result (λ a. a ≡ allowed_at nodes.now place) }
{
    let words = namespace_words(alloc, nodes, place)?;
    allowed_by(alloc, target(nodes, place), words.as_slice())
}
