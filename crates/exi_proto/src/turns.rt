//! What comes of a task: states, and smaller tasks.

ghost use Rattle.std.specs.Prelude.{◌≡◌, ◌<◌, ◌≤◌, ◌+◌, ◌++◌, All, IfOk, IfSome, OnOk, Some, length, map, slice_get};
ghost use Rattle.exi_gram.specs.Terminals.{step_rule};
ghost use Rattle.exi_counts.specs.Counts.{most_states, sum_of};
ghost use Rattle.xsd_model.specs.Parts.{IsSchemaParts};
ghost use Rattle.exi_proto.specs.declared.work.Task.TheVariants as task;
ghost use Rattle.exi_proto.specs.Pieces.{counts_of, optional, repeated};
ghost use Rattle.exi_proto.specs.Places.{starts_by};
ghost use Rattle.exi_proto.specs.Protos.{piece_of};
ghost use Rattle.exi_proto.specs.Tasks.{Fits, IsTask, choice_at, copy_at, copy_states, group_at, inner_places, pieces_from, set_at, task_states, tasks_left, whole, whole_with};

use crate::copies::{Copies, How, copies_of, copy_count};
use crate::spot::Spot;
use crate::steps::leading;
use crate::work::{Task, Work};
use exi_counts::Counts;
use exi_gram::{Items, Step};
use std::alloc::{AllocError, Global};
use xsd_model::{Group, Particle, Term};

/// The particle at a place.
fn particle_at<'a>(counts: &'a Counts<'_>, particle: u32) -> &'a Particle
    requires inside { particle < length counts.now.particles }
    ensures is { slice_get counts.now.particles particle ≡ Some result.now }
    ensures parts { IsSchemaParts counts.now }
{
    &counts.elements().parts().particles()[particle as usize]
}

/// The group at a place.
fn group_of<'a>(counts: &'a Counts<'_>, group: u32) -> &'a Group
    requires exists { group < length counts.now.groups }
    ensures is { slice_get counts.now.groups group ≡ Some result.now }
    ensures parts { IsSchemaParts counts.now }
{
    &counts.elements().parts().groups()[group as usize]
}

/// The particles in the sequence or choice of the particle at a place.
fn inner_of<'a>(counts: &'a Counts<'_>, particle: u32) -> &'a [u32]
    requires inside { particle < length counts.now.particles }
    ensures places { result.now ≡ inner_places counts.now particle }
    ensures inside { All (λ place. place < length counts.now.particles) result.now }
{
    let particles = counts.elements().parts().particles();
    match &particles[particle as usize].term {
        Term::Sequence(places) => places.as_slice(),
        Term::Choice(places) => places.as_slice(),
        Term::Element(_) => &[],
        Term::Group(_) => &[],
        Term::Wild(_) => &[],
    }
}

/// The particle that stands at a place among these.
fn inner_at(counts: &Counts<'_>, particle: u32, index: u32) -> Option<u32>
    requires inside { particle < length counts.now.particles }
    ensures here { result ≡ slice_get (inner_places counts.now particle) index }
    ensures inside { IfSome result (λ inner. inner < length counts.now.particles) }
    ensures few { IfSome result (λ _. index < length (inner_places counts.now particle)) }
{
    inner_of(counts, particle).get(index as usize).copied()
}

impl Work {
    /// The particle of the group at a place.
    fn push_group(
        &mut self,
        alloc: Global,
        counts: &Counts<'_>,
        group: u32,
        spot: Spot,
    ) -> Result<(), AllocError>
        requires exists { group < length counts.now.groups }
        requires fits { Fits spot (length (group_at counts.now group).states) (group_at counts.now group).particles }
        requires tasks { All (IsTask counts.now) (tasks_left self.old) }
        ensures whole { OnOk result (whole counts.now self.new ≡ whole_with counts.now self.old (set_at spot (group_at counts.now group).states)) }
        ensures tasks { OnOk result (All (IsTask counts.now) (tasks_left self.new)) }
    {
        match group_of(counts, group).particle {
            None => self.push_ending(alloc, spot.first, spot.next),
            Some(particle) => self.push_task(Task::Particle { particle, spot }),
        }
    }

    /// The branches of the choice of the particle at a place, and a state that leads to each of them.
    fn push_choice(
        &mut self,
        alloc: Global,
        counts: &Counts<'_>,
        particle: u32,
        spot: Spot,
    ) -> Result<(), AllocError>
        requires inside { particle < length counts.now.particles }
        requires fits { Fits spot (length (choice_at counts.now particle).states) (choice_at counts.now particle).particles }
        requires tasks { All (IsTask counts.now) (tasks_left self.old) }
        ensures whole { OnOk result (whole counts.now self.new ≡ whole_with counts.now self.old (set_at spot (choice_at counts.now particle).states)) }
        ensures tasks { OnOk result (All (IsTask counts.now) (tasks_left self.new)) }
    {
        let places = inner_of(counts, particle);
        let starts = starts_of(alloc, counts, places, spot.first + 1)?;
        self.push_state(starts)?;
        self.push_task(Task::Choice {
            particle,
            from: 0,
            spot: spot.behind(1, 0),
        })
    }

    /// One copy of what the particle at a place is of.
    fn push_term(
        &mut self,
        alloc: Global,
        counts: &Counts<'_>,
        particle: u32,
        spot: Spot,
    ) -> Result<(), AllocError>
        requires inside { particle < length counts.now.particles }
        requires fits { Fits spot (length (copy_at counts.now particle).states) (copy_at counts.now particle).particles }
        requires tasks { All (IsTask counts.now) (tasks_left self.old) }
        ensures whole { OnOk result (whole counts.now self.new ≡ whole_with counts.now self.old (set_at spot (copy_at counts.now particle).states)) }
        ensures tasks { OnOk result (All (IsTask counts.now) (tasks_left self.new)) }
    {
        match &particle_at(counts, particle).term {
            Term::Element(element) => self.push_element(alloc, counts.elements(), *element, spot),
            Term::Group(group) => self.push_group(alloc, counts, *group, spot),
            Term::Sequence(_) => self.push_task(Task::Sequence {
                particle,
                from: 0,
                spot,
            }),
            Term::Choice(_) => self.push_choice(alloc, counts, particle, spot),
            Term::Wild(wild) => self.push_wild(alloc, wild, spot),
        }
    }

    /// One copy that may be left out.
    fn push_optional(
        &mut self,
        alloc: Global,
        counts: &Counts<'_>,
        particle: u32,
        spot: Spot,
    ) -> Result<(), AllocError>
        requires inside { particle < length counts.now.particles }
        requires fits { Fits spot (length (copy_at counts.now particle).states) (copy_at counts.now particle).particles }
        requires tasks { All (IsTask counts.now) (tasks_left self.old) }
        ensures whole { OnOk result (whole counts.now self.new ≡ whole_with counts.now self.old (set_at spot (optional (copy_at counts.now particle).states))) }
        ensures tasks { OnOk result (All (IsTask counts.now) (tasks_left self.new)) }
    {
        self.push_end(spot)?;
        self.push_term(alloc, counts, particle, spot)
    }

    /// A copy that stands as often as it may be, also not at all.
    fn push_repeated(
        &mut self,
        alloc: Global,
        counts: &Counts<'_>,
        particle: u32,
        spot: Spot,
    ) -> Result<(), AllocError>
        requires inside { particle < length counts.now.particles }
        requires fits { Fits spot (length (copy_at counts.now particle).states) (copy_at counts.now particle).particles }
        requires tasks { All (IsTask counts.now) (tasks_left self.old) }
        ensures whole { OnOk result (whole counts.now self.new ≡ whole_with counts.now self.old (set_at spot (repeated (copy_at counts.now particle).states))) }
        ensures tasks { OnOk result (All (IsTask counts.now) (tasks_left self.new)) }
    {
        self.push_end(spot)?;
        self.push_term(alloc, counts, particle, spot.returning())
    }

    /// One copy of what the particle at a place is of, which stands so.
    fn push_copy(
        &mut self,
        alloc: Global,
        counts: &Counts<'_>,
        particle: u32,
        how: How,
        spot: Spot,
    ) -> Result<(), AllocError>
        requires inside { particle < length counts.now.particles }
        requires fits { Fits spot (length (copy_at counts.now particle).states) (copy_at counts.now particle).particles }
        requires tasks { All (IsTask counts.now) (tasks_left self.old) }
        ensures whole { OnOk result (whole counts.now self.new ≡ whole_with counts.now self.old (set_at spot (copy_states (copy_at counts.now particle).states how))) }
        ensures tasks { OnOk result (All (IsTask counts.now) (tasks_left self.new)) }
    {
        match how {
            How::Once => self.push_term(alloc, counts, particle, spot),
            How::Optional => self.push_optional(alloc, counts, particle, spot),
            How::Repeated => self.push_repeated(alloc, counts, particle, spot),
        }
    }

    /// The particle at a place.
    fn turn_particle(
        &mut self,
        alloc: Global,
        counts: &Counts<'_>,
        particle: u32,
        spot: Spot,
    ) -> Result<(), AllocError>
        requires task { IsTask counts.now (task.Particle particle spot) }
        requires tasks { All (IsTask counts.now) (tasks_left self.old) }
        ensures whole { OnOk result (whole counts.now self.new ≡ whole_with counts.now self.old (task_states counts.now (task.Particle particle spot))) }
        ensures tasks { OnOk result (All (IsTask counts.now) (tasks_left self.new)) }
    {
        let here = particle_at(counts, particle);
        let count = copy_count(here);
        if count == 0 {
            return self.push_ending(alloc, spot.first, spot.next);
        }
        let one = u64::from(counts.states(particle)) / count;
        self.push_task(Task::Copies {
            particle,
            copies: copies_of(here),
            one: one as u32,
            spot,
        })
    }

    /// The first of these copies, and a task for the others.
    fn turn_copies(
        &mut self,
        alloc: Global,
        counts: &Counts<'_>,
        particle: u32,
        copies: Copies,
        one: u32,
        spot: Spot,
    ) -> Result<(), AllocError>
        requires task { IsTask counts.now (task.Copies particle copies one spot) }
        requires tasks { All (IsTask counts.now) (tasks_left self.old) }
        ensures whole { OnOk result (whole counts.now self.new ≡ whole_with counts.now self.old (task_states counts.now (task.Copies particle copies one spot))) }
        ensures tasks { OnOk result (All (IsTask counts.now) (tasks_left self.new)) }
    {
        let Some(split) = copies.split() else {
            return self.push_ending(alloc, spot.first, spot.next);
        };
        let (how, others) = split;
        let last = others.is_none();
        if last {
            return self.push_copy(alloc, counts, particle, how, spot);
        }
        self.push_task(Task::Copies {
            particle,
            copies: others,
            one,
            spot: spot.behind(one, 0),
        })?;
        self.push_copy(alloc, counts, particle, how, spot.front(one))
    }

    /// A particle of a sequence, and a task for those behind it.
    fn turn_sequence(
        &mut self,
        alloc: Global,
        counts: &Counts<'_>,
        particle: u32,
        from: u32,
        spot: Spot,
    ) -> Result<(), AllocError>
        requires task { IsTask counts.now (task.Sequence particle from spot) }
        requires tasks { All (IsTask counts.now) (tasks_left self.old) }
        ensures whole { OnOk result (whole counts.now self.new ≡ whole_with counts.now self.old (task_states counts.now (task.Sequence particle from spot))) }
        ensures tasks { OnOk result (All (IsTask counts.now) (tasks_left self.new)) }
    {
        let Some(first) = inner_at(counts, particle, from) else {
            return self.push_ending(alloc, spot.first, spot.next);
        };
        let Some(_next) = inner_at(counts, particle, from + 1) else {
            return self.push_task(Task::Particle {
                particle: first,
                spot,
            });
        };
        let states = counts.states(first);
        let others = spot.behind(states, counts.particles(first));
        self.push_two(
            Task::Particle {
                particle: first,
                spot: spot.front(states),
            },
            Task::Sequence {
                particle,
                from: from + 1,
                spot: others,
            },
        )
    }

    /// A branch of a choice, and a task for those behind it.
    fn turn_choice(
        &mut self,
        counts: &Counts<'_>,
        particle: u32,
        from: u32,
        spot: Spot,
    ) -> Result<(), AllocError>
        requires task { IsTask counts.now (task.Choice particle from spot) }
        requires tasks { All (IsTask counts.now) (tasks_left self.old) }
        ensures whole { OnOk result (whole counts.now self.new ≡ whole_with counts.now self.old (task_states counts.now (task.Choice particle from spot))) }
        ensures tasks { OnOk result (All (IsTask counts.now) (tasks_left self.new)) }
    {
        let Some(first) = inner_at(counts, particle, from) else {
            return Ok(());
        };
        let others = spot.behind(counts.states(first), counts.particles(first));
        self.push_two(
            Task::Particle {
                particle: first,
                spot,
            },
            Task::Choice {
                particle,
                from: from + 1,
                spot: others,
            },
        )
    }

    /// What comes of a task.
    fn turn(&mut self, alloc: Global, counts: &Counts<'_>, task: Task) -> Result<(), AllocError>
        requires task { IsTask counts.now task }
        requires tasks { All (IsTask counts.now) (tasks_left self.old) }
        ensures whole { OnOk result (whole counts.now self.new ≡ whole_with counts.now self.old (task_states counts.now task)) }
        ensures tasks { OnOk result (All (IsTask counts.now) (tasks_left self.new)) }
    {
        match task {
            Task::Particle { particle, spot } => self.turn_particle(alloc, counts, particle, spot),
            Task::Copies {
                particle,
                copies,
                one,
                spot,
            } => self.turn_copies(alloc, counts, particle, copies, one, spot),
            Task::Sequence {
                particle,
                from,
                spot,
            } => self.turn_sequence(alloc, counts, particle, from, spot),
            Task::Choice {
                particle,
                from,
                spot,
            } => self.turn_choice(counts, particle, from, spot),
        }
    }

    /// The states that are made, with those of all tasks.
    ///
    /// # Errors
    ///
    /// `AllocError` where memory is refused.
    fn finish(self, alloc: Global, counts: &Counts<'_>) -> Result<Items<Items<Step>>, AllocError>
        requires tasks { All (IsTask counts.now) (tasks_left self) }
        ensures { IfOk result (λ states. map (map step_rule) states ≡ whole counts.now self) }
    {
        let mut work = self;
        // Each turn makes a state or goes on to smaller parts, so the tasks end long before the bound.
        for _turn in 0..u64::MAX {
            let Some(task) = work.tasks.pop() else {
                return Ok(work.made);
            };
            work.turn(alloc, counts, task)?;
        }
        Err(AllocError)
    }
}

/// The steps to the particles at these places, which stand one behind another from a place on.
fn starts_of(
    alloc: Global,
    counts: &Counts<'_>,
    places: &[u32],
    first: u32,
) -> Result<Items<Step>, AllocError>
    requires inside { All (λ place. place < length counts.now.particles) places.now }
    requires room { first + sum_of (counts_of (map (piece_of counts.now) places.now)) ≤ most_states }
    ensures { IfOk result (λ steps. map step_rule steps ≡ starts_by first (counts_of (map (piece_of counts.now) places.now))) }
{
    let mut steps = Items::new(alloc);
    let mut at = first;
    for place in places {
        steps.push(leading(at))?;
        at += counts.states(*place);
    }
    Ok(steps)
}

/// The states of the particle at a place, set at a spot behind those that are made.
///
/// # Errors
///
/// `AllocError` where memory is refused.
pub(crate) fn particle_states(
    alloc: Global,
    counts: &Counts<'_>,
    states: Items<Items<Step>>,
    particle: u32,
    spot: Spot,
) -> Result<Items<Items<Step>>, AllocError>
    requires task { IsTask counts.now (task.Particle particle spot) }
    ensures { IfOk result (λ all. map (map step_rule) all ≡ map (map step_rule) states ++ set_at spot (piece_of counts.now particle).states) }
{
    let mut work = Work::behind(alloc, states);
    work.push_task(Task::Particle { particle, spot })?;
    work.finish(alloc, counts)
}
