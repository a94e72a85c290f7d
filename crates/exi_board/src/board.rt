ghost use Rattle.std.specs.Prelude.{◌≡◌, ◌<◌, ◌≤◌, length};
ghost use Rattle.std.specs.List.Sorted.{IsStrictlyIncreasing};

use crate::note::Note;
use crate::rule::Rule;
use crate::view::{Hints, SeatView};
use atomic_table::Table;
use std::alloc::Global;

/// A claim board of postings `P`: hints, each with an offset, a word and a slot.
///
/// It is shared by reference. Threads step on it at the same time, each with a seat of its own. The note `N` is in it
/// for contracts alone. Board and seats are dropped in any order; a posting that no arrival took is dropped with the
/// board.
#[derive(Drop)]
pub struct Board<P, N: Note<P>> {
    // The words and slots. There is one word more than there are hints, so that there is a word to make seats by.
    pub(crate) table: Table<Option<P>, SeatView<N>, Hints<N>, Rule, Global>,
    pub(crate) hints: Hints<N>,
    ghost same: { hints.offsets.items ≡ table.shared.key.offsets.items },
    ghost rising: { IsStrictlyIncreasing hints.offsets.items },
    ghost few: { length hints.offsets.items ≤ 65536 },
    ghost words: { length hints.offsets.items ≤ table.shared.table_id.words },
    ghost slots: { length hints.offsets.items ≤ table.shared.table_id.slots },
    ghost some: { 0 < table.shared.table_id.words },
}
