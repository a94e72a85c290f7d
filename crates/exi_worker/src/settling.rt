// How a worker settles a hint that it has claimed.
ghost use Rattle.std.specs.Prelude.{◌≡◌, slice_index, IfOk};
ghost use Rattle.exi_board.specs.Seats.{IsSeatOf, offsets_of, view_of};
ghost use Rattle.exi_board.specs.Views.{IsUnsettled};
ghost use Rattle.exi_pool.specs.Passes.{IsOf, dry_of};
ghost use Rattle.exi_worker.specs.Hands.{SettledAs, Settles};
ghost use Rattle.exi_worker.specs.Outcomes.{IsPosting, board_job, worker_bounds};

use crate::fate::{Fate, Loss};
use crate::note::JobNote;
use crate::posting::Posting;
use exi_board::{Board, BoardSeat};
use exi_pool::{Pool, PoolPass};
use std::sync::Wait;

/// Settles a hint that the seat has claimed: posts what came of the fragment at its byte, or gives the hint up. Where a
/// posting comes too late, its pages go back.
pub(crate) fn settle<'a, R: Wait>(
    rt: &R,
    board: &Board<Posting, JobNote<'a>>,
    seat: &mut BoardSeat<Posting, JobNote<'a>>,
    hint: u32,
    read: Result<Posting, Loss>,
    pool: &Pool,
    pass: &mut PoolPass,
) -> Fate
    requires seat { IsSeatOf board.now seat.old }
    requires pass { IsOf pool.now pass.old }
    requires claimed { IsUnsettled hint (view_of seat.old) }
    requires outcome { IfOk read (IsPosting (board_job board.now) (slice_index (offsets_of board.now) hint) worker_bounds) }
    ensures seat { IsSeatOf board.now seat.new }
    ensures pass { IsOf pool.now pass.new }
    ensures fate { SettledAs read result hint (view_of seat.old) (view_of seat.new) }
    ensures pages { Settles read (view_of seat.old) pass.old (view_of seat.new) pass.new }
    ensures dry { dry_of pass.new ≡ dry_of pass.old }
{
    match read {
        Ok(posting) => match board.post(seat, hint, posting) {
            None => Fate::Posted,
            Some(back) => {
                back.tape.give_back(rt, pool, pass);
                Fate::Late
            }
        },
        Err(loss) => {
            board.give_up(seat, hint);
            Fate::GivenUp(loss)
        }
    }
}
