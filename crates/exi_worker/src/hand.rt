//! What a thread does with a seat of a board.
ghost use Rattle.std.specs.Prelude.{◌≡◌, ◌≤◌, ◌<◌, ◌+◌, ℕ, length};
ghost use Rattle.exi_board.specs.Seats.{IsSeatOf, hint_count, view_of};
ghost use Rattle.exi_board.specs.Views.{HasTried, IsSettled};
ghost use Rattle.exi_pool.specs.Passes.{IsOf, dry_of};
ghost use Rattle.exi_processing.specs.Reading.{IsJob, job_of};
ghost use Rattle.exi_worker.specs.Hands.{KeepsNone, OnlyMoves, given_up_in};
ghost use Rattle.exi_worker.specs.Outcomes.{board_job};

use crate::note::JobNote;
use crate::posting::Posting;
use crate::through::Through;
use crate::worked::Worked;
use crate::working::work_through;
use exi_board::{Board, BoardSeat};
use exi_pool::{Pool, PoolPass};
use exi_ports::Gate;
use exi_processing::Job;
use exi_tables::Tables;
use std::alloc::Global;
use std::sync::Wait;

/// A worker. Threads share it.
pub trait Hand: Sync {
    /// Claims hints until none is left, and settles each that it claims: it posts what came of the fragment at the hint's
    /// byte, or gives the hint up.
    ///
    /// Each page that it took from the pool, or received with a posting, is given back or sent with a posting. No memory
    /// that is refused, and no page that is missing, makes it stop.
    fn work<'a, R: Wait, T: Tables + Drop, G: Gate>(
        &self,
        rt: &R,
        alloc: Global,
        job: &Job<'_>,
        board: &Board<Posting, JobNote<'a>>,
        seat: &mut BoardSeat<Posting, JobNote<'a>>,
        pool: &Pool,
        pass: &mut PoolPass,
        gate: &G,
    ) -> Worked
        requires job { IsJob (job_of job.now) }
        requires note { board_job board.now ≡ job_of job.now }
        requires seat { IsSeatOf board.now seat.old }
        requires pass { IsOf pool.now pass.old }
        ensures seat { IsSeatOf board.now seat.new }
        ensures pass { IsOf pool.now pass.new }
        ensures tried { (h : ℕ) → h < hint_count board.now → HasTried h (view_of seat.new) }
        ensures settled { IsSettled (view_of seat.old) → IsSettled (view_of seat.new) }
        ensures posted { length (view_of seat.new).posted ≡ length (view_of seat.old).posted + result.posted }
        ensures late { length (view_of seat.new).late ≡ length (view_of seat.old).late + result.late }
        ensures given_up { length (view_of seat.new).given_up ≡ length (view_of seat.old).given_up + given_up_in result }
        ensures full { result.full + dry_of pass.old ≤ dry_of pass.new }
        ensures pages { KeepsNone (view_of seat.old) pass.old (view_of seat.new) pass.new }
        ensures moves { OnlyMoves pass.old pass.new };
}

/// The hand that works as [`work`](crate::work) does: it reads each fragment from its first event to its end.
#[derive(Clone, Copy, Debug, PartialEq, Eq)]
pub struct Plain;

impl Hand for Plain {
    fn work<'a, R: Wait, T: Tables + Drop, G: Gate>(
        &self,
        rt: &R,
        alloc: Global,
        job: &Job<'_>,
        board: &Board<Posting, JobNote<'a>>,
        seat: &mut BoardSeat<Posting, JobNote<'a>>,
        pool: &Pool,
        pass: &mut PoolPass,
        gate: &G,
    ) -> Worked {
        let through = Through { gate };
        work_through::<R, T, Through<'_, G>>(rt, alloc, job, board, seat, pool, pass, &through)
    }
}
