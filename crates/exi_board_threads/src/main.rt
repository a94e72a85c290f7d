//! Threads on one claim board, and what a board answers to calls in turn.
//!
//! First a board of the offsets 3 and 7 answers three seats, one call after another. Then eight threads, each with a
//! seat, share a board of 1,000 hints. In the first run all of them claim, and when they are done all of them arrive at
//! every hint. In the second run four claim while four arrive, and seat 0 arrives at every hint afterwards. What became
//! of each hint is counted over all seats, and no schedule changes what is printed:
//!
//! - each hint is claimed by one seat, once, and posted or given up once;
//! - of eight arrivals at a posted hint one takes the posting;
//! - in the second run each hint is claimed once or met free once; what was claimed is posted, posted late or given up,
//!   once; and what was posted is taken once. So none is lost.
#![tactic(auto)]

mod fates;
mod offsets;
mod turns;
mod workers;

use exi_board::Board;
use fates::{Totals, no_fates, sum_up};
use offsets::{SameOffset, offsets};
use std::alloc::{AllocError, Global};
use std::io;
use std::thread::Threads;
use turns::print_turns;
use workers::{Task, run_all};

/// How many seats share a board, each in a thread of its own.
const SEATS: u32 = 8;

/// What becomes of the hints where each thread does the task, and afterwards each arrives at every hint.
fn then_arrive<R: Threads + Sync>(rt: &R, alloc: Global, task: Task) -> Result<Totals, AllocError> {
    let offsets = offsets(alloc)?;
    let (board, mut seats) = Board::new(alloc, offsets.as_slice(), SEATS, SameOffset)?;
    let fates = no_fates(alloc)?;
    run_all(rt, task, &board, seats.as_mut_slice(), fates.as_slice());
    run_all(
        rt,
        Task::Arrive,
        &board,
        seats.as_mut_slice(),
        fates.as_slice(),
    );
    Ok(sum_up(fates.as_slice()))
}

fn main(rt: HostRuntime) -> io::Result<()> {
    print_turns(&rt, rt.alloc())?;
    let claimed = then_arrive(&rt, rt.alloc(), Task::Claim)?;
    println!(rt; "claimed by one seat: {}", claimed.claimed_once)?;
    println!(rt; "posted, and taken by one arrival: {}", claimed.taken_once)?;
    println!(rt; "given up: {}", claimed.given_up_once)?;
    let raced = then_arrive(&rt, rt.alloc(), Task::Race)?;
    println!(rt; "accounted for in a race: {}", raced.accounted_for)
}
