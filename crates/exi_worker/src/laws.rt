//! What of a worker's may go from one thread to another. Each law is a function that does nothing.

ghost use Rattle.std.specs.Prelude.{◌≡◌};

use crate::note::JobNote;
use crate::posting::Posting;
use exi_board::BoardSeat;

/// A posting may go to another thread, with its pages.
pub fn posting_is_sent(posting: Posting) -> Posting
    ensures same { result ≡ posting }
{
    sent(posting)
}

/// A seat of a board of postings may go to another thread.
pub fn seat_is_sent<'a>(seat: BoardSeat<Posting, JobNote<'a>>) -> BoardSeat<Posting, JobNote<'a>>
    ensures same { result ≡ seat.entry }
{
    sent(seat)
}

// Takes what may go to another thread.
fn sent<T: Send>(value: T) -> T
    ensures same { result ≡ value }
{
    value
}
