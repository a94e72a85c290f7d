//! The words as texts.

ghost use Rattle.std.specs.Prelude.{◌≡◌, IfOk, encode_utf8_all, map};

use exi_names::Txt;
use std::alloc::{AllocError, Global};

/// The words as texts, for [`command_of`](crate::command_of).
///
/// # Errors
///
/// `AllocError` where memory is refused.
pub fn lent<'a>(alloc: Global, words: &'a [Txt]) -> Result<Vec<&'a str>, AllocError>
    ensures { IfOk result (λ v. map (λ w. w.now) v.items ≡ map encode_utf8_all words.now) }
{
    let mut texts = Vec::new(alloc);
    for word in words {
        texts.push(word.as_str())?;
    }
    Ok(texts)
}
