// What a board of two hints answers three seats, one call after another.
ghost use Rattle.exi_board.specs.Seats.{IsSeatOf, view_of};
ghost use Rattle.exi_board.specs.Views.{StaysUnsettled};

use crate::offsets::SameOffset;
use exi_board::{Arrival, Board, BoardSeat};
use std::alloc::Global;
use std::io;

/// Prints what an arrival finds.
fn print_arrival<R: Print>(
    rt: &R,
    board: &Board<u64, SameOffset>,
    seat: &mut BoardSeat<u64, SameOffset>,
    offset: u64,
) -> io::Result<()>
    requires of { IsSeatOf board.now seat.old }
    ensures of { IsSeatOf board.now seat.new }
{
    match board.arrive(seat, offset) {
        Arrival::Posted(posting) => println!(rt; "arrive {offset}: posted {posting}"),
        Arrival::Mine => println!(rt; "arrive {offset}: mine"),
        Arrival::Busy(number) => println!(rt; "arrive {offset}: busy {number}"),
        Arrival::Spent => println!(rt; "arrive {offset}: spent"),
        Arrival::NotHinted => println!(rt; "arrive {offset}: not hinted"),
    }
}

/// Prints what a claim gives.
fn print_claim<R: Print>(
    rt: &R,
    board: &Board<u64, SameOffset>,
    seat: &mut BoardSeat<u64, SameOffset>,
) -> io::Result<()>
    requires of { IsSeatOf board.now seat.old }
    ensures of { IsSeatOf board.now seat.new }
    ensures stays { StaysUnsettled (view_of seat.old) (view_of seat.new) }
{
    match board.claim(seat) {
        Some(hint) => println!(rt; "claim: {hint}"),
        None => println!(rt; "claim: none"),
    }
}

/// Claims with two seats, spends one hint before its posting comes, and posts the other in time.
fn take_turns<R: Print>(
    rt: &R,
    board: &Board<u64, SameOffset>,
    reader: &mut BoardSeat<u64, SameOffset>,
    first: &mut BoardSeat<u64, SameOffset>,
    second: &mut BoardSeat<u64, SameOffset>,
) -> io::Result<()>
    requires reader { IsSeatOf board.now reader.old }
    requires first { IsSeatOf board.now first.old }
    requires second { IsSeatOf board.now second.old }
{
    let (Some(one), Some(two)) = (board.claim(first), board.claim(second)) else {
        return println!(rt; "a claim failed");
    };
    println!(rt; "seat {} claims {one}", first.number())?;
    println!(rt; "seat {} claims {two}", second.number())?;
    print_claim(rt, board, first)?;
    print_arrival(rt, board, reader, 7)?;
    match board.post(second, two, board.offset(two)) {
        Some(posting) => println!(rt; "late {posting}")?,
        None => println!(rt; "posted")?,
    }
    match board.post(first, one, board.offset(one)) {
        Some(posting) => println!(rt; "late {posting}")?,
        None => println!(rt; "posted")?,
    }
    print_arrival(rt, board, reader, 3)?;
    print_arrival(rt, board, reader, 7)?;
    print_arrival(rt, board, reader, 5)
}

/// Prints what a board of the offsets 3 and 7 answers three seats.
pub fn print_turns<R: Print>(rt: &R, alloc: Global) -> io::Result<()> {
    let (board, mut seats) = Board::new(alloc, &[3, 7], 3, SameOffset)?;
    let (Some(mut second), Some(mut first), Some(mut reader)) = (
        seats.pop(),
        seats.pop(),
        seats.pop(),
    ) else {
        return println!(rt; "a seat is missing");
    };
    take_turns(rt, &board, &mut reader, &mut first, &mut second)
}
