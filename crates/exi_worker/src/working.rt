ghost use Rattle.std.specs.Prelude.{◌≡◌, ◌≤◌, ◌<◌, ◌+◌, ℕ, length};
ghost use Rattle.exi_board.specs.Seats.{IsSeatOf, hint_count, view_of};
ghost use Rattle.exi_board.specs.Views.{HasTried, IsSettled};
ghost use Rattle.exi_pool.specs.Passes.{IsOf, dry_of};
ghost use Rattle.exi_processing.specs.Reading.{IsJob, job_of};
ghost use Rattle.exi_worker.specs.Hands.{KeepsNone, OnlyMoves, Works, given_up_in};
ghost use Rattle.exi_worker.specs.Outcomes.{board_job};

use crate::decoding::decode;
use crate::note::JobNote;
use crate::posting::Posting;
use crate::settling::settle;
use crate::through::{Passing, Through};
use crate::worked::Worked;
use exi_board::{Board, BoardSeat};
use exi_pool::{Pool, PoolPass};
use exi_ports::Gate;
use exi_processing::Job;
use exi_tables::Tables;
use std::alloc::Global;
use std::sync::Wait;

/// Claims hints until none is left, and settles each that it claims: it reads the fragment at the hint's byte onto a tape,
/// under the limits of a worker, passes the gate with the number of its seat and the hint, and posts what came of it.
///
/// A posting that comes too late gives its pages back. Where the pool has no page left, where memory is refused, where an
/// event is too long for a tape and where the hint lies after the end of the input, the hint is given up, and the pages that
/// were taken for it go back. So each page that is taken is given back, but for those that stand in the seat's view beside
/// the hints that it posted.
pub fn work<'a, R: Wait, T: Tables + Drop, G: Gate>(
    rt: &R,
    alloc: Global,
    job: &Job<'_>,
    board: &Board<Posting, JobNote<'a>>,
    seat: &mut BoardSeat<Posting, JobNote<'a>>,
    pool: &Pool,
    pass: &mut PoolPass,
    gate: &G,
) -> Worked
    requires job { IsJob (job_of job.now) }
    requires note { board_job board.now ≡ job_of job.now }
    requires seat { IsSeatOf board.now seat.old }
    requires pass { IsOf pool.now pass.old }
    ensures seat { IsSeatOf board.now seat.new }
    ensures pass { IsOf pool.now pass.new }
    ensures tried { (h : ℕ) → h < hint_count board.now → HasTried h (view_of seat.new) }
    ensures settled { IsSettled (view_of seat.old) → IsSettled (view_of seat.new) }
    ensures posted { length (view_of seat.new).posted ≡ length (view_of seat.old).posted + result.posted }
    ensures late { length (view_of seat.new).late ≡ length (view_of seat.old).late + result.late }
    ensures given_up { length (view_of seat.new).given_up ≡ length (view_of seat.old).given_up + given_up_in result }
    ensures full { result.full + dry_of pass.old ≤ dry_of pass.new }
    ensures pages { KeepsNone (view_of seat.old) pass.old (view_of seat.new) pass.new }
    ensures moves { OnlyMoves pass.old pass.new }
    ensures arrivals { (view_of seat.new).arrivals ≡ (view_of seat.old).arrivals }
{
    let through = Through { gate };
    work_through::<R, T, Through<'_, G>>(rt, alloc, job, board, seat, pool, pass, &through)
}

/// [`work`], with a way through the gate.
pub(crate) fn work_through<'a, R: Wait, T: Tables + Drop, G: Passing>(
    rt: &R,
    alloc: Global,
    job: &Job<'_>,
    board: &Board<Posting, JobNote<'a>>,
    seat: &mut BoardSeat<Posting, JobNote<'a>>,
    pool: &Pool,
    pass: &mut PoolPass,
    gate: &G,
) -> Worked
    requires job { IsJob (job_of job.now) }
    requires note { board_job board.now ≡ job_of job.now }
    requires seat { IsSeatOf board.now seat.old }
    requires pass { IsOf pool.now pass.old }
    ensures seat { IsSeatOf board.now seat.new }
    ensures pass { IsOf pool.now pass.new }
    ensures tried { (h : ℕ) → h < hint_count board.now → HasTried h (view_of seat.new) }
    ensures works { Works (view_of seat.old) pass.old (view_of seat.new) pass.new result }
{
    let mut worked = Worked::none();
    while let Some(hint) = board.claim(seat) {
        let read = decode::<R, T>(rt, alloc, job, board.offset(hint), pool, pass);
        if read.is_ok() {
            gate.pass(seat.number(), hint);
        }
        worked.count(settle(rt, board, seat, hint, read, pool, pass));
    }
    worked
}
