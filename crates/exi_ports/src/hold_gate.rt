use crate::gate::Gate;
use std::sync::atomic::{AtomicU64, Ordering};
use std::thread;

/// A gate that holds one seat until another has entered, so that a test can ask for a schedule.
///
/// It takes no memory, and holds for a number of turns at most: a thread that is held yields once a turn.
#[derive(Drop)]
pub struct HoldGate {
    held: u32,
    until: u32,
    turns: u64,
    // How often `until` entered, and how often `held` ran out of turns.
    entered: AtomicU64,
    missed: AtomicU64,
}

impl HoldGate {
    /// A gate that holds the seat `held` until the seat `until` has entered [`Gate::pass`], for at most `turns` turns.
    pub fn new(held: u32, until: u32, turns: u64) -> HoldGate {
        HoldGate {
            held,
            until,
            turns,
            entered: AtomicU64::new(0),
            missed: AtomicU64::new(0),
        }
    }

    /// Whether the turns ran out before the other seat entered.
    pub fn missed(&self) -> bool {
        self.missed.load(Ordering::SeqCst) != 0
    }

    /// How often the other seat was seen to enter.
    pub fn entered(&self) -> u64 {
        self.entered.load(Ordering::SeqCst)
    }
}

impl Gate for HoldGate {
    fn pass(&self, seat: u32, _hint: u32) {
        if seat == self.until {
            self.entered.fetch_add(1, Ordering::SeqCst);
        }
        if seat != self.held {
            return;
        }
        for _ in 0..self.turns {
            if self.entered() != 0 {
                return;
            }
            thread::yield_now();
        }
        if self.entered() == 0 {
            self.missed.fetch_add(1, Ordering::SeqCst);
        }
    }
}
