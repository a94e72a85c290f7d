//! What all particles count for.

ghost use Rattle.std.specs.Prelude.{◌≡◌, ◌<◌, None, true, false, IfOk, length, replicate};
ghost use Rattle.xsd_model.specs.Parts.{IsSchemaParts};
ghost use Rattle.exi_counts.specs.Sizes.{AreSettled, AreSizes, AreWhole, is_due, looked, unknown};

use crate::order::inner_first;
use crate::size::{Size, particle_size};
use exi_elements::Elements;
use std::alloc::{AllocError, Global};

/// Counts the particle at a place, where it is not yet and those within it are, and whether that is so.
fn look(elements: &Elements<'_>, sizes: &mut Vec<Option<Size>>, place: u32) -> bool
    requires exists { place < length elements.now.particles }
    requires count { length sizes.old.items ≡ length elements.now.particles }
    ensures due { result ≡ is_due elements.now sizes.old.items place }
    ensures sizes { sizes.new.items ≡ looked elements.now sizes.old.items place }
{
    if sizes[place as usize].is_some() {
        return false;
    }
    match particle_size(elements, sizes.as_slice(), place) {
        Some(size) => {
            sizes[place as usize] = Some(size);
            true
        }
        None => false,
    }
}

/// Looks at the particles at these places.
fn look_at_each(elements: &Elements<'_>, sizes: &mut Vec<Option<Size>>, places: &[u32])
    requires schema { IsSchemaParts elements.now }
    requires sizes { AreSizes elements.now sizes.old.items }
    ensures { AreSizes elements.now sizes.new.items }
{
    for place in places {
        if (*place as usize) < sizes.len() {
            look(elements, sizes, *place);
        }
    }
}

/// Looks at all particles, and whether one was due.
fn look_at_all(elements: &Elements<'_>, sizes: &mut Vec<Option<Size>>, count: u32) -> bool
    requires count { count ≡ length elements.now.particles }
    requires schema { IsSchemaParts elements.now }
    requires sizes { AreSizes elements.now sizes.old.items }
    ensures sizes { AreSizes elements.now sizes.new.items }
    ensures more { result ≡ true → unknown sizes.new.items < unknown sizes.old.items }
    ensures settled { result ≡ false → AreSettled elements.now sizes.new.items }
{
    let mut some = false;
    for place in 0..count {
        if look(elements, sizes, place) {
            some = true;
        }
    }
    some
}

/// Looks at all particles until none is due.
fn settle(elements: &Elements<'_>, sizes: &mut Vec<Option<Size>>, count: u32)
    requires count { count ≡ length elements.now.particles }
    requires schema { IsSchemaParts elements.now }
    requires sizes { AreSizes elements.now sizes.old.items }
    ensures sizes { AreSizes elements.now sizes.new.items }
    ensures settled { AreSettled elements.now sizes.new.items }
{
    loop {
        if !look_at_all(elements, sizes, count) {
            return;
        }
    }
}

/// So many that are not known.
fn none_known(alloc: Global, count: u32) -> Result<Vec<Option<Size>>, AllocError>
    ensures { IfOk result (λ v. v.items ≡ replicate count None) }
{
    let mut sizes = Vec::with_capacity(alloc, count as usize)?;
    for _ in 0..count {
        sizes.push(None)?;
    }
    Ok(sizes)
}

/// What each particle counts for. In the order in which they are looked at first, all are counted at once.
///
/// # Errors
///
/// `AllocError` where memory is refused.
pub(crate) fn sizes_of(
    alloc: Global,
    elements: &Elements<'_>,
    count: u32,
) -> Result<Vec<Option<Size>>, AllocError>
    requires count { count ≡ length elements.now.particles }
    requires schema { IsSchemaParts elements.now }
    ensures { IfOk result (λ v. AreWhole elements.now v.items) }
{
    let order = inner_first(alloc, elements.parts(), count)?;
    let mut sizes = none_known(alloc, count)?;
    look_at_each(elements, &mut sizes, order.as_slice());
    settle(elements, &mut sizes, count);
    Ok(sizes)
}
