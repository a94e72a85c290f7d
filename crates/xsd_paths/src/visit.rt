//! A good order in which to look at the elements: each behind those that its steps lead to. Nothing but speed hangs on it.

ghost use Rattle.std.specs.Prelude.{◌≤◌, ◌^◌};

use exi_gram::Items;
use std::alloc::{AllocError, Global};
use xsd_steps::Steps;

/// Puts the place of an element among those whose steps lead to one.
fn add_source(
    sources: &mut Vec<Items<u32>>,
    step: Option<u32>,
    place: u32,
) -> Result<(), AllocError> {
    if let Some(target) = step {
        if (target as usize) < sources.len() {
            sources[target as usize].push(place)?;
        }
    }
    Ok(())
}

/// The elements whose steps lead to each one.
fn sources_of(alloc: Global, steps: &Steps<'_>, count: usize) -> Result<Vec<Items<u32>>, AllocError>
    requires few { count ≤ 2 ^ 28 }
{
    let mut sources = Vec::new(alloc);
    for _ in 0..count {
        sources.push(Items::new(alloc))?;
    }
    for place in 0..count {
        for step in steps.steps(place as u32) {
            add_source(&mut sources, *step, place as u32)?;
        }
    }
    Ok(sources)
}

/// How many steps each element has.
fn step_counts(alloc: Global, steps: &Steps<'_>, count: usize) -> Result<Vec<usize>, AllocError>
    requires few { count ≤ 2 ^ 28 }
{
    let mut counts = Vec::new(alloc);
    for place in 0..count {
        counts.push(steps.steps(place as u32).len())?;
    }
    Ok(counts)
}

/// Takes a step from what an element has left, and whether it was the last.
fn take_step(left: &mut Vec<usize>, place: u32) -> bool {
    let index = place as usize;
    if index < left.len() && 0 < left[index] {
        left[index] -= 1;
        left[index] == 0
    } else {
        false
    }
}

/// Takes a step from what each of these has left, and lists those that have none any more.
fn take_steps(
    visit: &mut Vec<u32>,
    left: &mut Vec<usize>,
    sources: &[u32],
) -> Result<(), AllocError> {
    for source in sources {
        if take_step(left, *source) {
            visit.push(*source)?;
        }
    }
    Ok(())
}

/// The places of elements in an order in which to look at them, first those without steps.
pub(crate) fn visiting_order(
    alloc: Global,
    steps: &Steps<'_>,
    count: usize,
) -> Result<Vec<u32>, AllocError>
    requires few { count ≤ 2 ^ 28 }
{
    let sources = sources_of(alloc, steps, count)?;
    let mut left = step_counts(alloc, steps, count)?;
    let mut visit = Vec::new(alloc);
    for place in 0..count {
        if steps.steps(place as u32).is_empty() {
            visit.push(place as u32)?;
        }
    }
    for next in 0..count {
        let Some(place) = visit.get(next) else {
            break;
        };
        if let Some(sources) = sources.get(*place as usize) {
            take_steps(&mut visit, &mut left, sources.as_slice())?;
        }
    }
    Ok(visit)
}
