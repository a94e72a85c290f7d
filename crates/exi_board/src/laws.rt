//! What the rule of a board says over all its seats, between any two steps of any threads.
//!
//! A law is a function that does nothing: what it ensures is the law. `fits` is that of the board's note.

ghost use Rattle.std.specs.Prelude.{◌≡◌, ℕ, ◌<◌, ◌≤◌, length};
ghost use Rattle.exi_board.specs.Laws.{SeatsDiffer, SeatsAreCounted, FreeIsUntouched, OneClaimant, ClaimedOnce, SpentIsTwo, PostedWord, ClaimedWord, UnsettledWord, PostedByClaimant, PostedIsHeld, FoundOnce};
ghost use Rattle.exi_board.specs.Seats.{view_of};
ghost use Rattle.exi_board.specs.Views.{tried_by, HasTried, HasNotTried};

use crate::board::Board;
use crate::note::Note;
use crate::seat::BoardSeat;

/// Two seats have two numbers.
pub fn seats_differ<P, N: Note<P>>()
    ensures { SeatsDiffer N.fits }
{}

/// Each seat's number is below the number of seats, which seat 0 knows.
pub fn seats_are_counted<P, N: Note<P>>()
    ensures { SeatsAreCounted N.fits }
{}

/// A hint whose word is 0 stands in no list of any seat.
pub fn free_is_untouched<P, N: Note<P>>()
    ensures { FreeIsUntouched N.fits }
{}

/// At most one seat has claimed a hint.
pub fn one_claimant<P, N: Note<P>>()
    ensures { OneClaimant N.fits }
{}

/// A seat claims a hint at most once, and settles it at most as often: in one of three ways.
pub fn claimed_once<P, N: Note<P>>()
    ensures { ClaimedOnce N.fits }
{}

/// A hint that was posted late, given up or arrived at has the word 2.
pub fn spent_is_two<P, N: Note<P>>()
    ensures { SpentIsTwo N.fits }
{}

/// A hint that was posted has the word 1, or the word 2 after exactly one arrival that found 1.
pub fn posted_word<P, N: Note<P>>()
    ensures { PostedWord N.fits }
{}

/// Where a hint's word is 3 + s, seat s has claimed it and not settled it.
pub fn claimed_word<P, N: Note<P>>()
    ensures { ClaimedWord N.fits }
{}

/// A hint that seat s has not settled has the word 3 + s, or the word 2 after exactly one arrival that found 3 + s.
pub fn unsettled_word<P, N: Note<P>>()
    ensures { UnsettledWord N.fits }
{}

/// Where a hint's word is 1, a seat that claimed it posted it.
pub fn posted_by_claimant<P, N: Note<P>>()
    ensures { PostedByClaimant N.fits }
{}

/// Where a hint's word is 1, its slot holds a posting that fits its offset.
pub fn posted_is_held<P, N: Note<P>>()
    ensures { PostedIsHeld N.fits }
{}

/// At most one arrival at a hint finds it posted.
pub fn found_once<P, N: Note<P>>()
    ensures { FoundOnce N.fits }
{}

/// A seat has claimed or seen not free each hint below the number of those that it tried, once, and no other.
pub fn tried_once<P, N>(seat: &BoardSeat<P, N>)
    ensures tried { (h : ℕ) → h < tried_by (view_of seat.now) → HasTried h (view_of seat.now) }
    ensures others { (h : ℕ) → tried_by (view_of seat.now) ≤ h → HasNotTried h (view_of seat.now) }
    ensures within { tried_by (view_of seat.now) ≤ length (view_of seat.now).hints.offsets.items }
{}

/// Threads may share a board where its postings may go from one to another and its note may be shared.
pub fn board_is_shared<P: Send, N: Note<P> + Sync>(board: &Board<P, N>) {
    shared(board);
}

/// A seat may go to another thread where postings may.
pub fn seat_is_sent<P: Send, N>(seat: BoardSeat<P, N>) -> BoardSeat<P, N>
    ensures same { result ≡ seat }
{
    sent(seat)
}

// Takes what threads may share.
fn shared<T: Sync>(_value: &T) {}

// Takes what may go to another thread.
fn sent<T: Send>(value: T) -> T
    ensures same { result ≡ value }
{
    value
}
