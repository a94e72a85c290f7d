// What bare steps on memory take.
use crate::clock::keep_least;
use crate::offsets::HINTS;
use std::alloc::{AllocError, Global};
use std::sync::atomic::{AtomicU64, Ordering};
use std::time::{Clock, Instant};
use std::{io, mem};

/// How many steps found what they should, and how many nanoseconds they took in the round in which it was least.
#[derive(Clone, Copy)]
pub struct Bare {
    /// Steps that found what they should.
    pub right: u64,
    /// A compare-exchange of each number.
    pub compare_exchange: u64,
    /// A swap of each number.
    pub swap: u64,
    /// An exchange of what each place has.
    pub exchange: u64,
}

impl Bare {
    /// No round.
    pub fn none() -> Bare {
        Bare {
            right: 0,
            compare_exchange: u64::MAX,
            swap: u64::MAX,
            exchange: u64::MAX,
        }
    }
}

/// As many numbers as a board has hints, each 0.
fn numbers(alloc: Global) -> Result<Vec<AtomicU64>, AllocError> {
    let mut numbers = Vec::new(alloc);
    for _ in 0..HINTS {
        numbers.push(AtomicU64::new(0))?;
    }
    Ok(numbers)
}

/// As many places, each empty.
fn places(alloc: Global) -> Result<Vec<Option<u64>>, AllocError> {
    let mut places = Vec::new(alloc);
    for _ in 0..HINTS {
        places.push(None)?;
    }
    Ok(places)
}

/// Changes each number from 0 to 3, and gives how many were 0.
fn compare_exchange_all(numbers: &[AtomicU64]) -> u64 {
    let mut right: u64 = 0;
    for number in numbers {
        if number
            .compare_exchange(0, 3, Ordering::SeqCst, Ordering::SeqCst)
            .is_ok()
        {
            right = right.wrapping_add(1);
        }
    }
    right
}

/// Changes each number to 2, and gives how many were 3.
fn swap_all(numbers: &[AtomicU64]) -> u64 {
    let mut right: u64 = 0;
    for number in numbers {
        if number.swap(2, Ordering::SeqCst) == 3 {
            right = right.wrapping_add(1);
        }
    }
    right
}

/// Puts a value into each place, and gives how many were empty.
fn exchange_all(places: &mut [Option<u64>], value: u64) -> u64 {
    let mut right: u64 = 0;
    for place in places {
        if mem::replace(place, Some(value)).is_none() {
            right = right.wrapping_add(1);
        }
    }
    right
}

/// One round.
pub fn measure_bare<R: Clock>(rt: &R, alloc: Global, bare: &mut Bare) -> io::Result<()> {
    let numbers = numbers(alloc)?;
    let mut places = places(alloc)?;
    let start = Instant::now(rt)?;
    let right = compare_exchange_all(numbers.as_slice());
    keep_least(rt, start, &mut bare.compare_exchange)?;
    bare.right = bare.right.saturating_add(right);
    let start = Instant::now(rt)?;
    let right = swap_all(numbers.as_slice());
    keep_least(rt, start, &mut bare.swap)?;
    bare.right = bare.right.saturating_add(right);
    let start = Instant::now(rt)?;
    let right = exchange_all(places.as_mut_slice(), bare.right);
    keep_least(rt, start, &mut bare.exchange)?;
    bare.right = bare.right.saturating_add(right);
    Ok(())
}
