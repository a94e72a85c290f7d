//! The states of a content.

ghost use Rattle.std.specs.Prelude.{◌≡◌, ◌<◌, ◌≤◌, ◌+◌, [], ◌∷◌, ◌++◌, All, IfOk, None, OnOk, if◌then◌else◌, length, map, true};
ghost use Rattle.exi_counts.specs.Counts.{most_states, sum_of};
ghost use Rattle.exi_gram.specs.Terminals.{ch_text, step_rule};
ghost use Rattle.exi_inherited.specs.Shown.{whole_of};
ghost use Rattle.exi_proto.specs.Contents.{any_piece, line_left, particles_in, text_at};
ghost use Rattle.exi_proto.specs.Attributes.{made_of};
ghost use Rattle.exi_proto.specs.Pieces.{counts_of, ending, particles_of, reading, sequence};
ghost use Rattle.exi_proto.specs.Places.{lined, set};
ghost use Rattle.exi_proto.specs.Protos.{any_pieces, content_states, piece_of, value_states};
ghost use Rattle.exi_proto.specs.Tasks.{Fits, most_particles, set_at};

use crate::datatypes::datatype_of;
use crate::spot::Spot;
use crate::steps::{ending, reading};
use crate::turns::particle_states;
use crate::work::Work;
use exi_counts::Counts;
use exi_gram::{Items, Step, Terminal};
use exi_inherited::Whole;
use std::alloc::{AllocError, Global};
use xsd_model::{Components, Wild};

/// The most particles of one content, so that a number tells that they are counted whole.
const MOST_PARTICLES: u32 = 4_294_967_294;

/// Whether these particles have at most [`MOST_PARTICLES`] with places of their own together.
fn are_few(counts: &Counts<'_>, particles: &[u32]) -> bool
    requires inside { All (λ place. place < length counts.now.particles) particles.now }
    ensures { result ≡ true → particles_of (map (piece_of counts.now) particles.now) ≤ most_particles }
{
    let mut left = MOST_PARTICLES;
    for particle in particles {
        let count = counts.particles(*particle);
        if left < count {
            return false;
        }
        left -= count;
    }
    true
}

/// The states of particles that stand one after another, behind those that are made.
fn particles_line(
    alloc: Global,
    counts: &Counts<'_>,
    states: Items<Items<Step>>,
    particles: &[u32],
    first: Spot,
) -> Result<Items<Items<Step>>, AllocError>
    requires inside { All (λ place. place < length counts.now.particles) particles.now }
    requires fits { Fits first (sum_of (counts_of (map (piece_of counts.now) particles.now))) (particles_of (map (piece_of counts.now) particles.now)) }
    ensures { IfOk result (λ all. made_of all ≡ made_of states ++ line_left first.first first.before first.next (map (piece_of counts.now) particles.now)) }
{
    let mut made = states;
    let mut spot = first;
    let mut left = particles.len();
    for particle in particles {
        let count = counts.states(*particle);
        left -= 1;
        let here = if left == 0 { spot } else { spot.front(count) };
        made = particle_states(alloc, counts, made, *particle, here)?;
        spot = spot.behind(count, counts.particles(*particle));
    }
    Ok(made)
}

/// The states of any elements, as often as they may be.
fn any_states(alloc: Global, spot: Spot) -> Result<Items<Items<Step>>, AllocError>
    requires fits { Fits spot 2 0 }
    ensures { IfOk result (λ states. made_of states ≡ set_at spot any_piece.states) }
{
    let mut work = Work::behind(alloc, Items::new(alloc));
    work.push_end(spot)?;
    work.push_wild(alloc, &Wild::Any, spot.returning())?;
    Ok(work.made)
}

/// The states of elements from a place on.
fn element_states(
    alloc: Global,
    counts: &Counts<'_>,
    any: bool,
    particles: &[u32],
    first: u32,
) -> Result<Items<Items<Step>>, AllocError>
    requires inside { All (λ place. place < length counts.now.particles) particles.now }
    requires fits { first + length (sequence (any_pieces any ++ map (piece_of counts.now) particles.now)).states ≤ most_states }
    ensures { IfOk result (λ states. made_of states ≡ lined first 0 None (any_pieces any ++ map (piece_of counts.now) particles.now)) }
{
    let spot = Spot {
        first,
        before: 0,
        next: None,
    };
    if !are_few(counts, particles) {
        return Err(AllocError);
    }
    if particles.is_empty() {
        return if any {
            any_states(alloc, spot)
        } else {
            one_end(alloc, first)
        };
    }
    if any {
        let states = any_states(alloc, spot.front(2))?;
        particles_line(alloc, counts, states, particles, spot.behind(2, 0))
    } else {
        particles_line(alloc, counts, Items::new(alloc), particles, spot)
    }
}

/// A state that is the end of the element.
pub(crate) fn one_end(alloc: Global, state: u32) -> Result<Items<Items<Step>>, AllocError>
    ensures { IfOk result (λ states. made_of states ≡ (ending state ∷ []) ∷ []) }
{
    let mut steps = Items::new(alloc);
    steps.push(ending(state, None))?;
    let mut states = Items::new(alloc);
    states.push(steps)?;
    Ok(states)
}

/// The two states of a value of the simple type at a place.
pub(crate) fn value_states(
    alloc: Global,
    parts: &Components,
    of: u32,
    first: u32,
) -> Result<Items<Items<Step>>, AllocError>
    requires room { first + 1 ≤ most_states }
    ensures { IfOk result (λ states. made_of states ≡ set first 0 None (value_states parts.now of)) }
{
    let mut steps = Items::new(alloc);
    steps.push(reading(Terminal::Ch(datatype_of(alloc, parts, of)?), first + 1))?;
    let mut states = Items::new(alloc);
    states.push(steps)?;
    let mut last = Items::new(alloc);
    last.push(ending(first + 1, None))?;
    states.push(last)?;
    Ok(states)
}

/// Adds the step that reads text and stays in a state, where text may stand.
fn push_text(state: &mut Items<Step>, mixed: bool, place: u32) -> Result<(), AllocError>
    ensures { OnOk result (map step_rule state.new ≡ map step_rule state.old ++ (if mixed then reading ch_text place ∷ [] else [])) }
{
    if mixed {
        state.push(reading(Terminal::ChText, place))?;
    }
    Ok(())
}

/// Adds states behind others. Where text may stand among elements, it stands last in each of them, and stays there.
pub(crate) fn push_states(
    states: &mut Items<Items<Step>>,
    more: Items<Items<Step>>,
    mixed: bool,
) -> Result<(), AllocError>
    requires room { length states.old + length more ≤ most_states }
    ensures { OnOk result (made_of states.new ≡ made_of states.old ++ text_at mixed (length states.old) (made_of more)) }
{
    let mut place = states.as_slice().len() as u32;
    for state in more.into_vec() {
        let mut state = state;
        push_text(&mut state, mixed, place)?;
        states.push(state)?;
        place += 1;
    }
    Ok(())
}

/// Adds the states of a content behind those of the attributes.
///
/// # Errors
///
/// `AllocError` where memory is refused, or where the content has more than [`MOST_PARTICLES`] particles.
pub(crate) fn push_content(
    alloc: Global,
    counts: &Counts<'_>,
    states: &mut Items<Items<Step>>,
    whole: &Whole,
) -> Result<(), AllocError>
    requires room { length states.old + length (content_states counts.now (whole_of whole.now)) ≤ most_states }
    requires inside { All (λ place. place < length counts.now.particles) (particles_in (whole_of whole.now)) }
    ensures { OnOk result (made_of states.new ≡ made_of states.old ++ set (length states.old) 0 None (content_states counts.now (whole_of whole.now))) }
{
    let first = states.as_slice().len() as u32;
    match whole {
        Whole::Value(of) => {
            let more = value_states(alloc, counts.elements().parts(), *of, first)?;
            push_states(states, more, false)
        }
        Whole::Elements {
            any,
            particles,
            mixed,
        } => {
            let more = element_states(alloc, counts, *any, particles.as_slice(), first)?;
            push_states(states, more, *mixed)
        }
    }
}
