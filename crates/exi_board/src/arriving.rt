// Arrivals.
ghost use Rattle.std.specs.Prelude.{ℕ, IfSome, IfNone};
ghost use Rattle.exi_board.specs.Arrivals.{IsHintOf, IsArrival, IfPosted};
ghost use Rattle.exi_board.specs.Seats.{offsets_of, note_of, IsSeatOf};

use crate::arrival::Arrival;
use crate::board::Board;
use crate::note::Note;
use crate::rule::Arrive;
use crate::seat::BoardSeat;

impl<P: Drop, N: Note<P>> Board<P, N> {
    // The hint of an offset.
    fn find(&self, offset: u64) -> Option<usize>
        ensures some { IfSome result (IsHintOf (offsets_of self.now) offset) }
        ensures none { IfNone result ((k : ℕ) → ¬ IsHintOf (offsets_of self.now) offset k) }
    {
        match self.hints.offsets.as_slice().binary_search(&offset) {
            Ok(hint) => Some(hint),
            Err(_) => None,
        }
    }

    /// Spends the hint of an offset by one swap of its word to 2, and says what the word was.
    ///
    /// Where it was 1, the posting is taken out of the slot: it fits the offset, as the board's note says. The pages that
    /// it carries stand in the view beside the arrival.
    pub fn arrive(&self, seat: &mut BoardSeat<P, N>, offset: u64) -> Arrival<P>
        requires of { IsSeatOf self.now seat.old }
        ensures of { IsSeatOf self.now seat.new }
        ensures arrival { IsArrival N.pages self.now offset seat.old result seat.new }
        ensures fits { IfPosted result (λ p. N.fits (note_of self.now) offset p) }
    {
        let Some(hint) = self.find(offset) else {
            return Arrival::NotHinted;
        };
        let found = self.table.shared.swap::<Arrive>(&mut seat.seat, hint, 2);
        match found {
            0 => Arrival::Mine,
            1 => match self.table.shared.exchange(&mut seat.seat, hint, None) {
                Some(posting) => Arrival::Posted(posting),
                None => unreachable!(),
            },
            2 => Arrival::Spent,
            _ => Arrival::Busy((found - 3) as u32),
        }
    }
}
