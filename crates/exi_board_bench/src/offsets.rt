// The offsets of the boards here, and what is posted.
ghost use Rattle.std.specs.Prelude.{◌≡◌, [], length, IfOk};
ghost use Rattle.std.specs.List.Sorted.{IsStrictlyIncreasing};

use exi_board::Note;
use std::alloc::{AllocError, Global};

/// How many hints a board has.
pub const HINTS: u32 = 1000;

/// The offsets of all hints: their numbers.
pub fn offsets(alloc: Global) -> Result<Vec<u64>, AllocError>
    ensures count { IfOk result (λ v. length v.items ≡ 1000) }
    ensures rising { IfOk result (λ v. IsStrictlyIncreasing v.items) }
{
    let mut offsets = Vec::with_capacity(alloc, HINTS as usize)?;
    for hint in 0..HINTS {
        offsets.push(hint as u64)?;
    }
    Ok(offsets)
}

/// The note of these boards: any number may be posted, and carries no pages.
#[derive(Clone, Copy)]
pub struct AnyNumber;

impl Note<u64> for AnyNumber {
    ghost fits = { λ _ _ _. Unit {0} };

    ghost pages = { λ _. [] };
}
