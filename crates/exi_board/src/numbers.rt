// What the hints and seats are called by: offsets and numbers.
ghost use Rattle.std.specs.Prelude.{◌≡◌, ◌<◌, slice_index};
ghost use Rattle.exi_board.specs.Seats.{view_of, offsets_of, hint_count};

use crate::board::Board;
use crate::note::Note;
use crate::seat::BoardSeat;

impl<P: Drop, N: Note<P>> Board<P, N> {
    /// The offset of a hint, which is below the number of offsets.
    pub fn offset(&self, hint: u32) -> u64
        requires hint { hint < hint_count self.now }
        ensures offset { result ≡ slice_index (offsets_of self.now) hint }
    {
        self.hints.offsets[hint as usize]
    }
}

impl<P, N> BoardSeat<P, N> {
    /// The number of the seat, which no other seat of its board has.
    pub fn number(&self) -> u32
        ensures number { result ≡ (view_of self.now).number }
    {
        self.number
    }
}
