// What a thread does with its seat.
ghost use Rattle.std.specs.Prelude.{◌≡◌, ◌<◌, All};
ghost use Rattle.exi_board.specs.Seats.{IsSeatOf, view_of, hint_count};
ghost use Rattle.exi_board.specs.Views.{IsUnsettled, tried_by};

use crate::fates::{Fate, count};
use crate::offsets::{HINTS, SameOffset, offset_of};
use exi_board::{Arrival, Board, BoardSeat};
use std::thread::{Threads, for_each_mut};

/// What each thread does.
#[derive(Clone, Copy, Debug, PartialEq, Eq)]
pub enum Task {
    /// Each claims until no hint is left, and settles what it claims.
    Claim,
    /// Each arrives at every hint.
    Arrive,
    /// The seats of odd numbers claim, the others arrive.
    Race,
}

/// How a claimed hint was settled.
#[derive(Clone, Copy, Debug, PartialEq, Eq)]
enum Settled {
    Posted,
    Late,
    GivenUp,
}

/// Settles a claimed hint: each seventh is given up, and the others are posted.
fn settle(
    board: &Board<u64, SameOffset>,
    seat: &mut BoardSeat<u64, SameOffset>,
    hint: u32,
) -> Settled
    requires of { IsSeatOf board.now seat.old }
    requires hint { hint < hint_count board.now }
    requires claimed { IsUnsettled hint (view_of seat.old) }
    ensures of { IsSeatOf board.now seat.new }
    ensures tried { tried_by (view_of seat.new) ≡ tried_by (view_of seat.old) }
{
    if hint % 7 == 3 {
        board.give_up(seat, hint);
        return Settled::GivenUp;
    }
    match board.post(seat, hint, board.offset(hint)) {
        Some(_) => Settled::Late,
        None => Settled::Posted,
    }
}

/// Counts a claim.
fn count_claim(fates: &[Fate], hint: u32, settled: Settled) {
    let Some(fate) = fates.get(hint as usize) else {
        return;
    };
    count(&fate.claimed);
    match settled {
        Settled::Posted => count(&fate.posted),
        Settled::Late => count(&fate.late),
        Settled::GivenUp => count(&fate.given_up),
    }
}

/// Counts an arrival.
fn count_arrival(fates: &[Fate], hint: u32, found: Arrival<u64>) {
    let Some(fate) = fates.get(hint as usize) else {
        return;
    };
    match found {
        Arrival::Posted(_) => count(&fate.taken),
        Arrival::Mine => count(&fate.free),
        Arrival::Busy(_) | Arrival::Spent | Arrival::NotHinted => {}
    }
}

/// Claims until no hint is left, and settles each claim.
fn claim_all(board: &Board<u64, SameOffset>, seat: &mut BoardSeat<u64, SameOffset>, fates: &[Fate])
    requires of { IsSeatOf board.now seat.old }
    ensures of { IsSeatOf board.now seat.new }
{
    while let Some(hint) = board.claim(seat) {
        let settled = settle(board, seat, hint);
        count_claim(fates, hint, settled);
    }
}

/// Arrives at every hint, in ascending order from the hint `first` on and then from 0.
fn arrive_all(
    board: &Board<u64, SameOffset>,
    seat: &mut BoardSeat<u64, SameOffset>,
    fates: &[Fate],
    first: u32,
)
    requires of { IsSeatOf board.now seat.old }
    ensures of { IsSeatOf board.now seat.new }
{
    for turn in 0..HINTS {
        let hint = turn.wrapping_add(first) % HINTS;
        let found = board.arrive(seat, offset_of(hint));
        count_arrival(fates, hint, found);
    }
}

/// Does the task with one seat.
pub fn run(
    task: Task,
    board: &Board<u64, SameOffset>,
    seat: &mut BoardSeat<u64, SameOffset>,
    fates: &[Fate],
)
    requires of { IsSeatOf board.now seat.old }
    ensures of { IsSeatOf board.now seat.new }
{
    let number = seat.number();
    match task {
        Task::Claim => claim_all(board, seat, fates),
        Task::Race if number % 2 == 1 => claim_all(board, seat, fates),
        Task::Race | Task::Arrive => arrive_all(board, seat, fates, number.wrapping_mul(125)),
    }
}

/// Does the task with each seat, each in a thread of its own where one can be made.
pub fn run_all<R: Threads + Sync>(
    rt: &R,
    task: Task,
    board: &Board<u64, SameOffset>,
    seats: &mut [BoardSeat<u64, SameOffset>],
    fates: &[Fate],
)
    requires of { All (IsSeatOf board.now) seats.old }
    ensures of { All (IsSeatOf board.now) seats.new }
{
    let threads = seats.len();
    if threads == 0 {
        return;
    }
    for_each_mut(
        rt,
        seats,
        threads,
        &|_: usize, seat: &mut BoardSeat<u64, SameOffset>|
            requires { IsSeatOf board.now seat.old }
            ensures { IsSeatOf board.entry.now seat.new }
        { run(task, board, seat, fates) },
    );
}
