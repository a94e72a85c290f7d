ghost use Rattle.std.specs.Prelude.{◌≡◌};
ghost use Rattle.std.proofs.Common.{refl, ◌∙◌};
ghost use Rattle.exi_board.specs.Seats.{IsSeatOf};
ghost use Rattle.exi_pool.specs.Passes.{IsOf};
ghost use Rattle.exi_worker.specs.Desks.{GaveBack, TookAt};
ghost use Rattle.exi_worker.specs.Outcomes.{board_job};

use crate::desk::Desk;
use crate::note::JobNote;
use crate::posting::Posting;
use exi_board::{Arrival, Board, BoardSeat};
use exi_pool::{Pool, PoolPass};
use std::sync::Wait;

/// A desk over a board: the reader's seat arrives at the hint of the byte, and what comes back gives its pages to the pool.
#[derive(Drop)]
pub struct BoardDesk<'a, 'b, R: Wait> {
    /// How the pool is waited for.
    pub rt: &'a R,
    /// Where workers post.
    pub board: &'a Board<Posting, JobNote<'b>>,
    /// What the reader arrives with.
    pub seat: &'a mut BoardSeat<Posting, JobNote<'b>>,
    /// Where pages go.
    pub pool: &'a Pool,
    /// What they are given with.
    pub pass: &'a mut PoolPass,
}

impl<'a, 'b, R: Wait> Desk for BoardDesk<'a, 'b, R> {
    ghost job = { λ d. board_job d.board.now };

    ghost sound = { λ d. IsSeatOf d.board.now d.seat.now × IsOf d.pool.now d.pass.now };

    ghost arrives = { λ a byte given b. TookAt a.board.now byte a.seat.now given b.seat.now × (b.pass.now ≡ a.pass.now) × (b.board.now ≡ a.board.now) };

    ghost returns = { λ a p b. (b.seat.now ≡ a.seat.now) × GaveBack a.pass.now p b.pass.now × (b.board.now ≡ a.board.now) };

    ghost same = { λ a b. (b.board ≡ a.board) × (b.pool ≡ a.pool) × (b.seat.ghost_name ≡ a.seat.ghost_name) × (b.pass.ghost_name ≡ a.pass.ghost_name) };

    fn arrive(&mut self, byte: u64) -> Option<Posting> {
        match self.board.arrive(self.seat, byte) {
            Arrival::Posted(posting) => Some(posting),
            Arrival::Mine | Arrival::Busy(_) | Arrival::Spent | Arrival::NotHinted => None,
        }
    }

    fn back(&mut self, posting: Posting) {
        let Posting { end: _, tape } = posting;
        tape.give_back(self.rt, self.pool, self.pass);
    }

    ghost same_now = { λ s. (refl, refl, refl, refl) };

    ghost same_then = { λ a b c p q. (q.0 ∙ p.0, q.1 ∙ p.1, q.2 ∙ p.2, q.3 ∙ p.3) };
}
