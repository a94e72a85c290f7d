// The offsets of the boards here, and what is posted.
ghost use Rattle.std.specs.Prelude.{◌≡◌, ◌+◌, ◌*◌, [], length, IfOk};
ghost use Rattle.std.specs.List.Sorted.{IsStrictlyIncreasing};

use exi_board::Note;
use std::alloc::{AllocError, Global};

/// How many hints the boards have that threads share.
pub const HINTS: u32 = 1000;

/// The offset of a hint.
pub fn offset_of(hint: u32) -> u64
    ensures { result ≡ hint * 5 + 3 }
{
    hint as u64 * 5 + 3
}

/// The offsets of all hints.
pub fn offsets(alloc: Global) -> Result<Vec<u64>, AllocError>
    ensures count { IfOk result (λ v. length v.items ≡ 1000) }
    ensures rising { IfOk result (λ v. IsStrictlyIncreasing v.items) }
{
    let mut offsets = Vec::with_capacity(alloc, HINTS as usize)?;
    for hint in 0..HINTS {
        offsets.push(offset_of(hint))?;
    }
    Ok(offsets)
}

/// The note of these boards: what is posted is the offset, and carries no pages.
#[derive(Clone, Copy)]
pub struct SameOffset;

impl Note<u64> for SameOffset {
    ghost fits = { λ _ offset posting. posting ≡ offset };

    ghost pages = { λ _. [] };
}
