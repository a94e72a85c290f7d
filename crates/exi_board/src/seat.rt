ghost use Rattle.std.specs.Prelude.{◌≡◌, ℕ, ◌+◌, ◌≤◌, length};
ghost use Rattle.exi_board.specs.Views.{below, one_if, claims, sees, tried_by};

use crate::view::SeatView;
use atomic_table::Seat;

/// A seat of a board: what a thread steps with.
///
/// Each step changes the view of its seat and of no other.
#[derive(Drop)]
pub struct BoardSeat<P, N> {
    pub(crate) seat: Seat<Option<P>, SeatView<N>>,
    pub(crate) number: u32,
    // The lowest hint that it has not tried to claim.
    pub(crate) next: u32,
    ghost numbered: { seat.me.0.number ≡ number },
    ghost still: { seat.me.0.putting ≡ 0 },
    ghost passed: { tried_by seat.me.0 ≡ next },
    ghost near: { next ≤ 65536 },
    ghost within: { next ≤ length seat.me.0.hints.offsets.items },
    ghost spans: { (h : ℕ) → claims h seat.me.0 + sees h seat.me.0 ≡ below (one_if h) next },
}
