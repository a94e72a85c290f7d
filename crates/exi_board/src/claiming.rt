// Claims.
ghost use Rattle.std.specs.Prelude.{◌≡◌, ℕ, ◌+◌, ◌<◌, ◌≤◌, length, true, IfSome, IfNone};
ghost use Rattle.exi_board.specs.Seats.{view_of, hint_count, IsSeatOf};
ghost use Rattle.exi_board.specs.Views.{tried_by, passing_to, claiming, IsTry, IsNewlyClaimed, HasTried, StaysUnsettled};

use crate::board::Board;
use crate::note::Note;
use crate::rule::Claim;
use crate::seat::BoardSeat;

impl<P: Drop, N: Note<P>> Board<P, N> {
    /// Claims the lowest free hint that the seat has not tried before.
    ///
    /// The hints that it has neither claimed nor seen not free are tried in ascending order, each by one compare-exchange
    /// of its word from 0 to 3 + s. Those that it passes over stand in its view as not free. So over n hints all claims
    /// of a seat make n steps together.
    ///
    /// `None` only where the seat has claimed each hint or seen it not free, in this call or before; such a call claims
    /// nothing.
    pub fn claim(&self, seat: &mut BoardSeat<P, N>) -> Option<u32>
        requires of { IsSeatOf self.now seat.old }
        ensures of { IsSeatOf self.now seat.new }
        ensures hint { IfSome result (λ h. h < hint_count self.now) }
        ensures next { IfSome result (λ h. tried_by (view_of seat.old) ≤ h) }
        ensures claimed { IfSome result (λ h. view_of seat.new ≡ claiming h (view_of seat.old)) }
        ensures newly { IfSome result (λ h. IsNewlyClaimed h (view_of seat.new)) }
        ensures tried { IfSome result (λ h. tried_by (view_of seat.new) ≡ h + 1) }
        ensures stays { StaysUnsettled (view_of seat.old) (view_of seat.new) }
        ensures all { IfNone result ((h : ℕ) → h < hint_count self.now → HasTried h (view_of seat.new)) }
        ensures none { IfNone result (view_of seat.new ≡ passing_to (hint_count self.now) (view_of seat.old)) }
    {
        while (seat.next as usize) < self.hints.offsets.len() {
            let hint = seat.next;
            if self.try_next(seat) {
                return Some(hint);
            }
        }
        None
    }

    // Tries the lowest hint that the seat has not tried.
    fn try_next(&self, seat: &mut BoardSeat<P, N>) -> bool
        requires of { IsSeatOf self.now seat.old }
        requires room { seat.old.next < length self.now.hints.offsets.items }
        ensures of { IsSeatOf self.now seat.new }
        ensures next { seat.new.next ≡ seat.old.next + 1 }
        ensures newly { result ≡ true → IsNewlyClaimed seat.old.next (view_of seat.new) }
        ensures view { IsTry seat.old.next (view_of seat.old) result (view_of seat.new) }
    {
        let hint = seat.next;
        let claim = 3 + seat.number as u64;
        let found = self
            .table
            .shared
            .compare_exchange::<Claim>(&mut seat.seat, hint as usize, 0, claim);
        seat.next = hint + 1;
        found == 0
    }
}
