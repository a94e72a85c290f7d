//! A walk over all elements, which finds those that lead to each other.

use crate::levels::{count_of, level_at};
use std::alloc::{AllocError, Global};
use xsd_steps::Steps;

/// Where a path of the walk stands: at an element, before one of its steps.
#[derive(Clone, Copy, Debug)]
struct Spot {
    place: u32,
    step: usize,
}

/// A walk in depth, as Tarjan's for strongly connected components.
#[derive(Debug, Drop)]
struct Walk {
    /// The number of each place in the order of the walk, from 1 on; 0 is not seen yet.
    numbers: Vec<u32>,
    /// The least number to which a place is known to lead among those whose level is open.
    lows: Vec<u32>,
    /// The level of each place, from 1 on; 0 is not known yet.
    levels: Vec<u32>,
    /// The path from where the walk began to where it is.
    path: Vec<Spot>,
    /// The places seen whose level is open, in the order of the walk.
    open: Vec<u32>,
    /// How many places are seen.
    seen: u32,
    /// The last level given.
    level: u32,
}

/// Sets the number of a place, where there is one.
fn put(numbers: &mut Vec<u32>, place: u32, number: u32) {
    let index = place as usize;
    if index < numbers.len() {
        numbers[index] = number;
    }
}

/// Lowers the number of a place.
fn lower(numbers: &mut Vec<u32>, place: u32, number: u32) {
    if number < level_at(numbers.as_slice(), place) {
        put(numbers, place, number);
    }
}

/// Gives a level to all places that are open, from the last one to this one.
fn close(open: &mut Vec<u32>, levels: &mut Vec<u32>, place: u32, level: u32) {
    while let Some(last) = open.pop() {
        put(levels, last, level);
        if last == place {
            return;
        }
    }
}

/// Comes to a place that is not seen yet.
fn enter(walk: &mut Walk, place: u32) -> Result<(), AllocError> {
    walk.seen = walk.seen.saturating_add(1);
    put(&mut walk.numbers, place, walk.seen);
    put(&mut walk.lows, place, walk.seen);
    walk.open.push(place)?;
    walk.path.push(Spot { place, step: 0 })?;
    Ok(())
}

/// Comes along a step to a place.
fn follow(walk: &mut Walk, from: u32, to: u32) -> Result<(), AllocError> {
    if level_at(walk.levels.as_slice(), to) != 0 {
        return Ok(());
    }
    let number = level_at(walk.numbers.as_slice(), to);
    if number == 0 {
        return enter(walk, to);
    }
    lower(&mut walk.lows, from, number);
    Ok(())
}

/// Turns back from a place. Where it leads to none before it, it and what is open behind it lead to each other.
fn leave(walk: &mut Walk, place: u32) {
    let low = level_at(walk.lows.as_slice(), place);
    if low == level_at(walk.numbers.as_slice(), place) {
        walk.level = walk.level.saturating_add(1);
        close(&mut walk.open, &mut walk.levels, place, walk.level);
    } else if let Some(before) = walk.path.last() {
        let parent = before.place;
        lower(&mut walk.lows, parent, low);
    }
}

/// Goes on by one step, or back, and tells whether the path had not ended.
fn go_on(walk: &mut Walk, steps: &Steps<'_>) -> Result<bool, AllocError> {
    let Some(spot) = walk.path.pop() else {
        return Ok(false);
    };
    match steps.steps(spot.place).get(spot.step) {
        Some(step) => {
            walk.path.push(Spot {
                place: spot.place,
                step: spot.step.saturating_add(1),
            })?;
            if let Some(to) = *step {
                follow(walk, spot.place, to)?;
            }
        }
        None => leave(walk, spot.place),
    }
    Ok(true)
}

/// Walks from a place to all that it leads to and that is not seen yet. It goes along each step once.
fn walk_from(walk: &mut Walk, steps: &Steps<'_>, place: u32) -> Result<(), AllocError> {
    enter(walk, place)?;
    // Each turn goes along a step or back from a place, so the path ends long before the bound.
    for _ in 0..u64::MAX {
        if !go_on(walk, steps)? {
            return Ok(());
        }
    }
    Ok(())
}

/// A level for each place: the same for those that lead to each other, and otherwise none leads to a higher one. No caller
/// counts on it before `never_rise` has found it so.
///
/// # Errors
///
/// `AllocError` where memory is refused.
pub(crate) fn levels_of(alloc: Global, steps: &Steps<'_>) -> Result<Vec<u32>, AllocError> {
    let count = count_of(steps);
    let mut walk = Walk {
        numbers: vec![in alloc; 0; count as usize]?,
        lows: vec![in alloc; 0; count as usize]?,
        levels: vec![in alloc; 0; count as usize]?,
        path: Vec::new(alloc),
        open: Vec::new(alloc),
        seen: 0,
        level: 0,
    };
    for place in 0..count {
        if level_at(walk.numbers.as_slice(), place) == 0 {
            walk_from(&mut walk, steps, place)?;
        }
    }
    Ok(walk.levels)
}
