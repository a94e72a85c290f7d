//! An order in which each particle stands behind those within it. What is counted does not depend on it, but for the time.

use exi_gram::Items;
use std::alloc::{AllocError, Global};
use xsd_model::{Components, Term};

/// The places of the particles directly within the one at a place.
fn inner(parts: &Components, place: u32) -> &[u32] {
    let Some(particle) = parts.particles().get(place as usize) else {
        return &[];
    };
    match &particle.term {
        Term::Element(_) | Term::Wild(_) => &[],
        Term::Group(group) => match parts.groups().get(*group as usize) {
            Some(group) => group.particle.as_slice(),
            None => &[],
        },
        Term::Sequence(places) | Term::Choice(places) => places.as_slice(),
    }
}

/// The particles that each one lies directly within.
fn outer_of(alloc: Global, parts: &Components, count: u32) -> Result<Vec<Items<u32>>, AllocError> {
    let mut outer = Vec::new(alloc);
    for _ in 0..count {
        outer.push(Items::new(alloc))?;
    }
    for place in 0..count {
        for within in inner(parts, place) {
            if (*within as usize) < outer.len() {
                outer[*within as usize].push(place)?;
            }
        }
    }
    Ok(outer)
}

/// How many particles lie directly within each one.
fn inner_counts(alloc: Global, parts: &Components, count: u32) -> Result<Vec<usize>, AllocError> {
    let mut counts = Vec::new(alloc);
    for place in 0..count {
        counts.push(inner(parts, place).len())?;
    }
    Ok(counts)
}

/// Takes one from what is left within a particle, and whether it was the last.
fn take_one(left: &mut Vec<usize>, place: u32) -> bool {
    let index = place as usize;
    if index < left.len() && 0 < left[index] {
        left[index] -= 1;
        left[index] == 0
    } else {
        false
    }
}

/// Takes one from each of these, and lists those within which nothing is left.
fn take_each(
    order: &mut Vec<u32>,
    left: &mut Vec<usize>,
    places: &[u32],
) -> Result<(), AllocError> {
    for place in places {
        if take_one(left, *place) {
            order.push(*place)?;
        }
    }
    Ok(())
}

/// The places of the particles, each behind those within it.
pub(crate) fn inner_first(
    alloc: Global,
    parts: &Components,
    count: u32,
) -> Result<Vec<u32>, AllocError> {
    let outer = outer_of(alloc, parts, count)?;
    let mut left = inner_counts(alloc, parts, count)?;
    let mut order = Vec::new(alloc);
    for place in 0..count {
        if inner(parts, place).is_empty() {
            order.push(place)?;
        }
    }
    for next in 0..count as usize {
        let Some(place) = order.get(next) else {
            break;
        };
        if let Some(places) = outer.get(*place as usize) {
            take_each(&mut order, &mut left, places.as_slice())?;
        }
    }
    Ok(order)
}
