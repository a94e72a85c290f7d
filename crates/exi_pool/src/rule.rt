//! The rule of a pool's queue, and the kinds of step that it allows.
ghost use Rattle.std.specs.Prelude.{◌≡◌, ◌+◌, ⊤};
ghost use Rattle.exi_pool.specs.Pages.{IsLone, number_of};
ghost use Rattle.exi_pool.specs.Rule.{Kept, Saw};
ghost use Rattle.exi_pool.specs.Views.{giving, newcomer, putting, taking, with_made};

use crate::page::Page;
use crate::view::View;
use crossbeam_queue::protocol::{Lesson, Outcome, Protocol, Split};

/// What holds of the queue and of what all passes know, between any two steps.
pub struct Rule;

impl Protocol<Page, View> for Rule {
    ghost holds = { Kept };

    ghost first = { newcomer 0 1 };
}

/// A new page goes into the queue.
pub struct PutFirst;

impl Outcome<Page, View> for PutFirst {
    ghost then = { λ v p w. w ≡ putting (number_of p) v };
}

impl Lesson<Page, View> for PutFirst {
    ghost fact = { λ v items. ⊤ };
}

/// A page leaves the queue.
pub struct Take;

impl Outcome<Page, View> for Take {
    ghost then = { λ v p w. (w ≡ taking (number_of p) v) × IsLone p };
}

impl Lesson<Page, View> for Take {
    ghost fact = { λ v items. Saw v items };
}

/// A page goes back into the queue.
pub struct Give;

impl Outcome<Page, View> for Give {
    ghost then = { λ v p w. w ≡ giving (number_of p) v };
}

impl Lesson<Page, View> for Give {
    ghost fact = { λ v items. ⊤ };
}

/// The first pass makes one more.
pub struct Make;

impl Split<View> for Make {
    ghost left = { λ v. with_made (v.made + 1) v };

    ghost right = { λ v. newcomer v.made 0 };
}
