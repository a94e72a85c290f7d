// What became of each hint, as the threads count it.
use crate::offsets::HINTS;
use std::alloc::{AllocError, Global};
use std::sync::atomic::{AtomicU64, Ordering};

/// How often each thing was done to one hint, by all seats together.
#[derive(Drop)]
pub struct Fate {
    /// A seat claimed it.
    pub claimed: AtomicU64,
    /// Its claimant posted it in time.
    pub posted: AtomicU64,
    /// Its claimant's posting came back.
    pub late: AtomicU64,
    /// Its claimant gave it up.
    pub given_up: AtomicU64,
    /// An arrival found it free.
    pub free: AtomicU64,
    /// An arrival took its posting.
    pub taken: AtomicU64,
}

/// Counts one more.
pub fn count(counter: &AtomicU64) {
    counter.fetch_add(1, Ordering::SeqCst);
}

/// The count.
fn counted(counter: &AtomicU64) -> u64 {
    counter.load(Ordering::SeqCst)
}

impl Fate {
    fn none() -> Fate {
        Fate {
            claimed: AtomicU64::new(0),
            posted: AtomicU64::new(0),
            late: AtomicU64::new(0),
            given_up: AtomicU64::new(0),
            free: AtomicU64::new(0),
            taken: AtomicU64::new(0),
        }
    }

    /// Whether one seat claimed the hint, once.
    fn is_claimed_once(&self) -> bool {
        counted(&self.claimed) == 1
    }

    /// Whether the hint was posted once and taken once.
    fn is_taken_once(&self) -> bool {
        counted(&self.posted) == 1 && counted(&self.taken) == 1
    }

    /// Whether the hint was given up once, and nothing was taken.
    fn is_given_up_once(&self) -> bool {
        counted(&self.given_up) == 1 && counted(&self.posted) == 0 && counted(&self.taken) == 0
    }

    /// Whether the hint was claimed once or met free once, its claim was settled once, and what was posted was taken.
    fn is_accounted_for(&self) -> bool {
        let claimed = counted(&self.claimed);
        let posted = counted(&self.posted);
        let late = counted(&self.late);
        let settled = posted
            .wrapping_add(late)
            .wrapping_add(counted(&self.given_up));
        claimed.wrapping_add(counted(&self.free)) == 1
            && settled == claimed
            && counted(&self.taken) == posted
    }
}

/// As many hints, of which nothing is counted.
pub fn no_fates(alloc: Global) -> Result<Vec<Fate>, AllocError> {
    let mut fates = Vec::new(alloc);
    for _ in 0..HINTS {
        fates.push(Fate::none())?;
    }
    Ok(fates)
}

/// How many hints there are of each kind.
#[derive(Clone, Copy, Debug, PartialEq, Eq)]
pub struct Totals {
    pub claimed_once: u32,
    pub taken_once: u32,
    pub given_up_once: u32,
    pub accounted_for: u32,
}

/// One more where the hint is of the kind.
fn plus(total: u32, is: bool) -> u32 {
    total.saturating_add(u32::from(is))
}

/// The totals of all hints.
pub fn sum_up(fates: &[Fate]) -> Totals {
    let mut totals = Totals {
        claimed_once: 0,
        taken_once: 0,
        given_up_once: 0,
        accounted_for: 0,
    };
    for fate in fates {
        totals.claimed_once = plus(totals.claimed_once, fate.is_claimed_once());
        totals.taken_once = plus(totals.taken_once, fate.is_taken_once());
        totals.given_up_once = plus(totals.given_up_once, fate.is_given_up_once());
        totals.accounted_for = plus(totals.accounted_for, fate.is_accounted_for());
    }
    totals
}
