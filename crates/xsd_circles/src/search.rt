//! A search along the steps, from one element on.

ghost use Rattle.std.specs.Prelude.{◌≡◌, [], false, IfOk, OnOk, get_or, replicate};
ghost use Rattle.xsd_circles.specs.Searches.{IsSearched, come_on, come_to, shown};

use crate::levels::count_of;
use std::alloc::{AllocError, Global};
use xsd_steps::Steps;

/// The places that a search has come to.
#[derive(Debug, Drop)]
pub(crate) struct Search {
    /// Whether each place is one of them.
    met: Vec<bool>,
    /// All of them, in the order in which it came to them.
    queue: Vec<u32>,
}

/// A search among so many places that has come to none.
fn begin(alloc: Global, count: u32) -> Result<Search, AllocError>
    ensures { IfOk result (λ s. shown s ≡ record { met = replicate count false; queue = [] }) }
{
    Ok(Search {
        met: vec![in alloc; false; count as usize]?,
        queue: Vec::new(alloc),
    })
}

/// Comes to a place.
fn come_to(search: &mut Search, place: u32) -> Result<(), AllocError>
    ensures { OnOk result (shown search.new ≡ come_to place (shown search.old)) }
{
    let index = place as usize;
    if index < search.met.len() && !search.met[index] {
        search.met[index] = true;
        search.queue.push(place)?;
    }
    Ok(())
}

/// Comes to where steps lead.
fn come_on(search: &mut Search, steps: &[Option<u32>]) -> Result<(), AllocError>
    ensures { OnOk result (shown search.new ≡ come_on steps.now (shown search.old)) }
{
    for step in steps {
        if let Some(place) = *step {
            come_to(search, place)?;
        }
    }
    Ok(())
}

/// Whether paths from an element lead to a place, for each place.
pub(crate) fn searched(
    alloc: Global,
    steps: &Steps<'_>,
    place: u32,
) -> Result<Vec<bool>, AllocError>
    ensures { IfOk result (λ met. IsSearched steps.now place met.items) }
{
    let mut search = begin(alloc, count_of(steps))?;
    come_on(&mut search, steps.steps(place))?;
    let mut index = 0;
    while index < search.queue.len() {
        let next = search.queue[index];
        come_on(&mut search, steps.steps(next))?;
        index += 1;
    }
    Ok(search.met)
}

/// Whether a search came to a place.
pub(crate) fn is_met(met: &[bool], place: u32) -> bool
    ensures { result ≡ get_or met.now place false }
{
    match met.get(place as usize) {
        Some(is_met) => *is_met,
        None => false,
    }
}
