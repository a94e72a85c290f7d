//! How much one particle counts for, by what those within it do.

ghost use Rattle.std.specs.Prelude.{◌≡◌, ◌+◌, ◌<◌, ◌≤◌, ◌^◌, Some, All, length, slice_get};
ghost use Rattle.xsd_model.specs.Parts.{IsBelow};
ghost use Rattle.exi_counts.specs.Counts.{copies};
ghost use Rattle.exi_counts.specs.Sizes.{IsTermBelow, copied_size, element_size, few, group_size, particle_size, sequence_size, sum_size, term_size, wild_size};

use crate::counts::MOST_STATES;
use exi_elements::Elements;
use xsd_model::{Group, Particle, Term, Wild};

/// How much a particle counts for.
#[derive(Clone, Copy, Debug)]
pub struct Size {
    /// How many states it has; one more than the most where there are more.
    pub states: u32,
    /// How many particles with places of their own stand in it.
    pub particles: u32,
}

pub(crate) const ONE_STATE: Size = Size {
    states: 1,
    particles: 0,
};

/// So many states, or one more than the most.
pub(crate) fn few(states: u64) -> u32
    ensures { result ≡ few states }
{
    states.min(u64::from(MOST_STATES) + 1) as u32
}

/// So many states and so many more, or one more than the most.
pub(crate) fn few_more(states: u32, more: u32) -> u32
    ensures { result ≡ few (states + more) }
{
    states.saturating_add(more).min(MOST_STATES + 1)
}

/// What those that may stand for an element count for.
fn element_size(elements: &Elements<'_>, element: u32) -> Size
    requires exists { element < length elements.now.elements }
    ensures { result ≡ element_size elements.now element }
{
    let count = elements.stand_in_count(element);
    let states = if count == 1 {
        2
    } else {
        2 * u64::from(count) + 1
    };
    Size {
        states: few(states),
        particles: count,
    }
}

/// What a wildcard counts for.
fn wild_size(wild: &Wild) -> Size
    ensures { result ≡ wild_size wild.now }
{
    let particles = match wild {
        Wild::Any => 0,
        Wild::Listed(uris) => uris.as_slice().len(),
    };
    Size {
        states: 2,
        particles: particles.min(u32::MAX as usize) as u32,
    }
}

/// What these count for together with so much.
fn sum_size(sizes: &[Option<Size>], start: Size, places: &[u32]) -> Option<Size>
    requires there { All (λ place. place < length sizes.now) places.now }
    ensures { result ≡ sum_size sizes.now start places.now }
{
    let mut total = start;
    for place in places {
        let size = sizes[*place as usize]?;
        total = Size {
            states: few_more(total.states, size.states),
            particles: total.particles.saturating_add(size.particles),
        };
    }
    Some(total)
}

/// What these count for one after another; nothing has one state.
fn sequence_size(sizes: &[Option<Size>], places: &[u32]) -> Option<Size>
    requires there { All (λ place. place < length sizes.now) places.now }
    ensures { result ≡ sequence_size sizes.now places.now }
{
    if places.is_empty() {
        return Some(ONE_STATE);
    }
    let nothing = Size {
        states: 0,
        particles: 0,
    };
    sum_size(sizes, nothing, places)
}

/// What a group counts for.
fn group_size(sizes: &[Option<Size>], group: &Group) -> Option<Size>
    requires there { IsBelow (length sizes.now) group.now.particle }
    ensures { result ≡ group_size sizes.now (Some group.now) }
{
    match group.particle {
        Some(place) => sizes[place as usize],
        None => Some(ONE_STATE),
    }
}

/// What stands once counts for, where those within it are known.
fn term_size(elements: &Elements<'_>, sizes: &[Option<Size>], term: &Term) -> Option<Size>
    requires there { IsTermBelow elements.now (length sizes.now) term.now }
    ensures { result ≡ term_size elements.now sizes.now term.now }
{
    match term {
        Term::Element(element) => Some(element_size(elements, *element)),
        Term::Group(group) => {
            let groups = elements.parts().groups();
            group_size(sizes, &groups[*group as usize])
        }
        Term::Sequence(places) => sequence_size(sizes, places.as_slice()),
        Term::Choice(places) => sum_size(sizes, ONE_STATE, places.as_slice()),
        Term::Wild(wild) => Some(wild_size(wild)),
    }
}

/// How many copies there are of what stands.
fn copies(particle: &Particle) -> u64
    ensures copies { result ≡ copies particle.now.least particle.now.most }
    ensures few { result ≤ 2 ^ 32 }
{
    match particle.most {
        Some(most) => u64::from(most),
        None => u64::from(particle.least) + 1,
    }
}

/// What so many copies count for.
fn copied_size(copies: u64, size: Size) -> Size
    requires few { copies ≤ 2 ^ 32 }
    ensures { result ≡ copied_size copies size }
{
    if copies == 0 {
        return ONE_STATE;
    }
    Size {
        states: few(copies * u64::from(size.states)),
        particles: size.particles,
    }
}

/// What the particle at a place counts for, where those within it are known.
pub(crate) fn particle_size(
    elements: &Elements<'_>,
    sizes: &[Option<Size>],
    place: u32,
) -> Option<Size>
    requires exists { place < length elements.now.particles }
    requires count { length sizes.now ≡ length elements.now.particles }
    ensures { result ≡ particle_size elements.now sizes.now (slice_get elements.now.particles place) }
{
    let particle = &elements.parts().particles()[place as usize];
    let size = term_size(elements, sizes, &particle.term)?;
    Some(copied_size(copies(particle), size))
}
