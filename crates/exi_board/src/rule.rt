// The rule of a board's words and slots, and the steps that are made on them.
ghost use Rattle.std.specs.Prelude.{◌+◌};
ghost use Rattle.exi_board.specs.Views.{new_view, with_seats};
ghost use Rattle.exi_board.specs.Rule.{BoardRule};
ghost use Rattle.exi_board.specs.Plays.{Claims, TakesOut, Posts, GivesUp, Arrives};

use crate::note::Note;
use crate::view::{Hints, SeatView};
use atomic_table::{Play, Split, TableRule};

/// The rule that a board keeps between any two steps of any threads: `BoardRule`.
pub struct Rule;

impl<P, N: Note<P>> TableRule<Option<P>, SeatView<N>, Hints<N>> for Rule {
    ghost holds = { λ hints s. BoardRule N.fits hints s };

    ghost first = { λ hints. new_view hints 0 1 };
}

// A compare-exchange of a hint's word from 0 to 3 + s.
pub struct Claim;

impl<P, N> Play<Option<P>, SeatView<N>> for Claim {
    ghost then = { Claims };
}

// A load of the word of a hint that the seat has claimed and not settled, with which it takes the hint's empty slot.
pub struct TakeOut;

impl<P, N> Play<Option<P>, SeatView<N>> for TakeOut {
    ghost then = { TakesOut };
}

// A compare-exchange of the word from 3 + s to 1, with which the seat gives the slot back.
pub struct Post;

impl<P, N: Note<P>> Play<Option<P>, SeatView<N>> for Post {
    ghost then = { Posts N.pages };
}

// A swap of the word of a hint that the seat has claimed and not settled to 2.
pub struct GiveUp;

impl<P, N> Play<Option<P>, SeatView<N>> for GiveUp {
    ghost then = { GivesUp };
}

// A swap of a hint's word to 2, with which the seat takes the slot where the word was 1.
pub struct Arrive;

impl<P, N: Note<P>> Play<Option<P>, SeatView<N>> for Arrive {
    ghost then = { Arrives N.fits N.pages };
}

// One seat more, made by seat 0.
pub struct Make;

impl<N> Split<SeatView<N>> for Make {
    ghost left = { λ v. with_seats (v.seats + 1) v };

    ghost right = { λ v. new_view v.hints v.seats 0 };
}
