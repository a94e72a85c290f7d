// How a seat settles a hint that it has claimed: it posts it or gives it up.
ghost use Rattle.std.specs.Prelude.{◌≡◌, slice_index, IfSome, IfNone};
ghost use Rattle.exi_board.specs.Seats.{view_of, offsets_of, note_of, IsSeatOf};
ghost use Rattle.exi_board.specs.Views.{IsUnsettled, with_posted, with_late, with_given_up};

use crate::board::Board;
use crate::note::Note;
use crate::rule::{GiveUp, Post, TakeOut};
use crate::seat::BoardSeat;

impl<P: Drop, N: Note<P>> Board<P, N> {
    /// Posts under a hint that the seat has claimed and neither posted nor given up.
    ///
    /// The posting is put into the hint's slot, and one compare-exchange of the word from 3 + s to 1 makes it known. The
    /// posting comes back exactly where this found 2: an arrival came first.
    pub fn post(&self, seat: &mut BoardSeat<P, N>, hint: u32, posting: P) -> Option<P>
        requires of { IsSeatOf self.now seat.old }
        requires claimed { IsUnsettled hint (view_of seat.old) }
        requires fits { N.fits (note_of self.now) (slice_index (offsets_of self.now) hint) posting }
        ensures of { IsSeatOf self.now seat.new }
        ensures posted { IfNone result (view_of seat.new ≡ with_posted hint (N.pages posting) (view_of seat.old)) }
        ensures late { IfSome result (λ _. view_of seat.new ≡ with_late hint (view_of seat.old)) }
        ensures back { IfSome result (λ p. p ≡ posting) }
    {
        let _ = self
            .table
            .shared
            .load::<TakeOut>(&mut seat.seat, hint as usize);
        let _empty = self
            .table
            .shared
            .exchange(&mut seat.seat, hint as usize, Some(posting));
        let claim = 3 + seat.number as u64;
        let found = self
            .table
            .shared
            .compare_exchange::<Post>(&mut seat.seat, hint as usize, claim, 1);
        if found == claim {
            return None;
        }
        self.table
            .shared
            .exchange(&mut seat.seat, hint as usize, None)
    }

    /// Gives up a hint that the seat has claimed and neither posted nor given up. Its word is 2 afterwards.
    pub fn give_up(&self, seat: &mut BoardSeat<P, N>, hint: u32)
        requires of { IsSeatOf self.now seat.old }
        requires claimed { IsUnsettled hint (view_of seat.old) }
        ensures of { IsSeatOf self.now seat.new }
        ensures given_up { view_of seat.new ≡ with_given_up hint (view_of seat.old) }
    {
        self.table
            .shared
            .swap::<GiveUp>(&mut seat.seat, hint as usize, 2);
    }
}
