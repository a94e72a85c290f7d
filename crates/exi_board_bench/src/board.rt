// What the calls of a board take.
ghost use Rattle.exi_board.specs.Seats.{IsSeatOf};

use crate::clock::keep_least;
use crate::offsets::{AnyNumber, offsets};
use exi_board::{Arrival, Board, BoardSeat};
use std::alloc::Global;
use std::io;
use std::time::{Clock, Instant};

/// What the calls of all rounds answered, and how many nanoseconds they took in the round in which it was least.
#[derive(Clone, Copy)]
pub struct Calls {
    /// Hints that were claimed.
    pub claimed: u64,
    /// Hints that were posted in time.
    pub posted: u64,
    /// Postings that an arrival took.
    pub taken: u64,
    /// Claims.
    pub claim: u64,
    /// Claims, each with a post.
    pub claim_post: u64,
    /// Claims, each with a post and an arrival.
    pub claim_post_arrive: u64,
}

impl Calls {
    /// No round.
    pub fn none() -> Calls {
        Calls {
            claimed: 0,
            posted: 0,
            taken: 0,
            claim: u64::MAX,
            claim_post: u64::MAX,
            claim_post_arrive: u64::MAX,
        }
    }
}

/// Claims each hint, and gives their number.
fn claim_all(board: &Board<u64, AnyNumber>, seat: &mut BoardSeat<u64, AnyNumber>) -> u64
    requires of { IsSeatOf board.now seat.old }
    ensures of { IsSeatOf board.now seat.new }
{
    let mut claimed: u64 = 0;
    while let Some(_hint) = board.claim(seat) {
        claimed = claimed.wrapping_add(1);
    }
    claimed
}

/// Claims each hint and posts it, and gives the number of those that were posted.
fn post_all(board: &Board<u64, AnyNumber>, seat: &mut BoardSeat<u64, AnyNumber>) -> u64
    requires of { IsSeatOf board.now seat.old }
    ensures of { IsSeatOf board.now seat.new }
{
    let mut posted: u64 = 0;
    while let Some(hint) = board.claim(seat) {
        if board.post(seat, hint, u64::from(hint)).is_none() {
            posted = posted.wrapping_add(1);
        }
    }
    posted
}

/// Claims each hint, posts it and arrives at it, and gives the number of those whose posting was taken.
fn take_all(board: &Board<u64, AnyNumber>, seat: &mut BoardSeat<u64, AnyNumber>) -> u64
    requires of { IsSeatOf board.now seat.old }
    ensures of { IsSeatOf board.now seat.new }
{
    let mut taken: u64 = 0;
    while let Some(hint) = board.claim(seat) {
        let _late = board.post(seat, hint, u64::from(hint));
        if let Arrival::Posted(_) = board.arrive(seat, u64::from(hint)) {
            taken = taken.wrapping_add(1);
        }
    }
    taken
}

/// One round.
pub fn measure_calls<R: Clock>(rt: &R, alloc: Global, calls: &mut Calls) -> io::Result<()> {
    let offsets = offsets(alloc)?;
    let (claims, mut seats) = Board::new(alloc, offsets.as_slice(), 1, AnyNumber)?;
    if let Some(seat) = seats.first_mut() {
        let start = Instant::now(rt)?;
        calls.claimed = calls.claimed.saturating_add(claim_all(&claims, seat));
        keep_least(rt, start, &mut calls.claim)?;
    }
    let (posts, mut seats) = Board::new(alloc, offsets.as_slice(), 1, AnyNumber)?;
    if let Some(seat) = seats.first_mut() {
        let start = Instant::now(rt)?;
        calls.posted = calls.posted.saturating_add(post_all(&posts, seat));
        keep_least(rt, start, &mut calls.claim_post)?;
    }
    let (arrivals, mut seats) = Board::new(alloc, offsets.as_slice(), 1, AnyNumber)?;
    if let Some(seat) = seats.first_mut() {
        let start = Instant::now(rt)?;
        calls.taken = calls.taken.saturating_add(take_all(&arrivals, seat));
        keep_least(rt, start, &mut calls.claim_post_arrive)?;
    }
    Ok(())
}
