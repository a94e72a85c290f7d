// Boards and their seats are made here.
ghost use Rattle.std.specs.Prelude.{◌≡◌, ◌<◌, ◌≤◌, length, map, All, IfOk};
ghost use Rattle.std.specs.List.Sorted.{IsStrictlyIncreasing};
ghost use Rattle.exi_board.specs.Seats.{view_of, hints_of, offsets_of, note_of, IsSeatOf, IsSeatOn};
ghost use Rattle.exi_board.specs.Views.{new_view, new_views};

use crate::board::Board;
use crate::note::Note;
use crate::rule::{Make, Rule};
use crate::seat::BoardSeat;
use crate::view::{Hints, SeatView};
use atomic_table::{Seat, Shared, Table};
use std::alloc::{AllocError, Global};

impl<P, N> BoardSeat<P, N> {
    // A seat that has done nothing.
    fn fresh(seat: Seat<Option<P>, SeatView<N>>, number: u32) -> BoardSeat<P, N>
        requires { seat.me.0 ≡ new_view seat.me.0.hints number seat.me.0.seats }
        ensures view { view_of result ≡ seat.me.0 }
        ensures table { result.seat.table_id ≡ seat.table_id }
    {
        BoardSeat {
            seat,
            number,
            next: 0,
        }
    }
}

// All seats of a table that has one seat.
fn make_seats<P, N: Note<P>>(
    alloc: Global,
    table: &Shared<Option<P>, SeatView<N>, Hints<N>, Rule>,
    first: Seat<Option<P>, SeatView<N>>,
    seats: u32,
) -> Result<Vec<BoardSeat<P, N>>, AllocError>
    requires table { first.table_id ≡ table.now.table_id }
    requires first { first.me.0 ≡ new_view table.now.key 0 1 }
    requires words { 0 < table.now.table_id.words }
    requires seats { 0 < seats }
    ensures views { IfOk result (λ all. map view_of all.items ≡ new_views table.now.key seats) }
    ensures tables { IfOk result (λ all. All (IsSeatOn table.now.table_id table.now.key) all.items) }
{
    let mut first = first;
    let mut all = Vec::with_capacity(alloc, seats as usize)?;
    for number in 1..seats {
        let seat = table.split_seat::<Make>(&mut first);
        all.push(BoardSeat::fresh(seat, number))?;
    }
    all.insert(0, BoardSeat::fresh(first, 0))?;
    Ok(all)
}

impl<P: Drop, N: Note<P> + Drop> Board<P, N> {
    /// A board of these offsets, each hint free, and its seats: the seat at place k of the list has the number k.
    ///
    /// The offsets strictly increase and are at most 65,536, and there is at least one seat.
    ///
    /// # Errors
    ///
    /// `AllocError` where memory is refused. It is the only call of a board that takes memory.
    pub fn new(
        alloc: Global,
        offsets: &[u64],
        seats: u32,
        note: N,
    ) -> Result<(Board<P, N>, Vec<BoardSeat<P, N>>), AllocError>
        requires few { length offsets.now ≤ 65536 }
        requires rising { IsStrictlyIncreasing offsets.now }
        requires seats { 0 < seats }
        ensures offsets { IfOk result (λ r. offsets_of r.0 ≡ offsets.now) }
        ensures note { IfOk result (λ r. note_of r.0 ≡ note) }
        ensures views { IfOk result (λ r. map view_of r.1.items ≡ new_views (hints_of r.0) seats) }
        ensures of { IfOk result (λ r. All (IsSeatOf r.0) r.1.items) }
    {
        let count = offsets.len();
        let hints = Hints {
            offsets: Vec::from_slice(alloc, offsets)?,
            note,
        };
        let words = vec![in alloc; 0u64; count + 1]?;
        let (table, first) = Table::vacant(alloc, words.as_slice(), count, &hints)?;
        let all = make_seats(alloc, &table.shared, first, seats)?;
        Ok((Board { table, hints }, all))
    }
}
