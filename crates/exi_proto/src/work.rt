//! States in the order of their places, and what is still to be made.

ghost use Rattle.std.specs.Prelude.{◌≡◌, ◌<◌, ◌+◌, [], ◌∷◌, ◌++◌, OnOk, map};
ghost use Rattle.exi_gram.specs.Terminals.{step_rule};
ghost use Rattle.exi_proto.specs.Places.{end_step, with_ends, with_first};
ghost use Rattle.exi_proto.specs.Tasks.{end_rule, ends_left, made, tasks_left};

use crate::copies::Copies;
use crate::spot::Spot;
use crate::steps::ending;
use exi_gram::{Items, Step};
use std::alloc::{AllocError, Global};

/// An end that waits for the next state, in which it stands last.
#[derive(Clone, Copy, Debug)]
pub(crate) struct End {
    /// The place of that state.
    pub state: u32,
    /// The place of the state to which it leads; none where it ends the element.
    pub next: Option<u32>,
}

/// A part of a grammar that is still to be made.
#[derive(Clone, Copy, Debug)]
pub(crate) enum Task {
    /// The particle at a place.
    Particle {
        particle: u32,
        spot: Spot,
    },
    /// Copies of what the particle at a place is of, each with so many states.
    Copies {
        particle: u32,
        copies: Copies,
        one: u32,
        spot: Spot,
    },
    /// The particles in the sequence at a place, from one on.
    Sequence {
        particle: u32,
        from: u32,
        spot: Spot,
    },
    /// The branches of the choice at a place, from one on.
    Choice {
        particle: u32,
        from: u32,
        spot: Spot,
    },
}

/// The states that are made, in their order, and what is still to be made behind them.
#[derive(Debug, Drop)]
pub(crate) struct Work {
    /// The states.
    pub made: Items<Items<Step>>,
    /// The ends that wait for the next state; the last of them stands first.
    pub ends: Vec<End>,
    /// What is to be made; the last comes next.
    pub tasks: Vec<Task>,
}

impl Work {
    /// Nothing is to be made behind these states.
    pub(crate) fn behind(alloc: Global, states: Items<Items<Step>>) -> Work
        ensures made { made result ≡ map (map step_rule) states }
        ensures ends { ends_left result ≡ [] }
        ensures tasks { tasks_left result ≡ [] }
    {
        Work {
            made: states,
            ends: Vec::new(alloc),
            tasks: Vec::new(alloc),
        }
    }

    /// Puts a task in front of the others.
    pub(crate) fn push_task(&mut self, task: Task) -> Result<(), AllocError>
        ensures made { OnOk result (made self.new ≡ made self.old) }
        ensures ends { OnOk result (ends_left self.new ≡ ends_left self.old) }
        ensures tasks { OnOk result (tasks_left self.new ≡ tasks_left self.old ++ task ∷ []) }
    {
        self.tasks.push(task)?;
        Ok(())
    }

    /// Puts two tasks in front of the others.
    pub(crate) fn push_two(&mut self, first: Task, second: Task) -> Result<(), AllocError>
        ensures made { OnOk result (made self.new ≡ made self.old) }
        ensures ends { OnOk result (ends_left self.new ≡ ends_left self.old) }
        ensures tasks { OnOk result (tasks_left self.new ≡ (tasks_left self.old ++ second ∷ []) ++ first ∷ []) }
    {
        self.push_task(second)?;
        self.push_task(first)
    }

    /// Lets the end of a part wait for the part's first state.
    pub(crate) fn push_end(&mut self, spot: Spot) -> Result<(), AllocError>
        ensures made { OnOk result (made self.new ≡ made self.old) }
        ensures ends { OnOk result (ends_left self.new ≡ ends_left self.old ++ end_step spot.first spot.next ∷ []) }
        ensures tasks { OnOk result (tasks_left self.new ≡ tasks_left self.old) }
    {
        self.ends.push(End {
            state: spot.first,
            next: spot.next,
        })?;
        Ok(())
    }

    /// Makes a state of these steps; the ends that wait stand last in it.
    pub(crate) fn push_state(&mut self, steps: Items<Step>) -> Result<(), AllocError>
        ensures made { OnOk result (made self.new ≡ made self.old ++ with_ends (ends_left self.old) (map step_rule steps) ∷ []) }
        ensures ends { OnOk result (ends_left self.new ≡ []) }
        ensures tasks { OnOk result (tasks_left self.new ≡ tasks_left self.old) }
    {
        let mut steps = steps;
        while let Some(end) = self.ends.pop() {
            steps.push(ending(end.state, end.next))?;
        }
        self.made.push(steps)?;
        Ok(())
    }

    /// Makes a state in which a part of the grammar ends.
    pub(crate) fn push_ending(
        &mut self,
        alloc: Global,
        state: u32,
        next: Option<u32>,
    ) -> Result<(), AllocError>
        ensures made { OnOk result (made self.new ≡ made self.old ++ with_first (ends_left self.old) ((end_step state next ∷ []) ∷ [])) }
        ensures ends { OnOk result (ends_left self.new ≡ []) }
        ensures tasks { OnOk result (tasks_left self.new ≡ tasks_left self.old) }
    {
        let mut steps = Items::new(alloc);
        steps.push(ending(state, next))?;
        self.push_state(steps)
    }

    /// Makes a state of these steps, which lead to another one, in which the part ends.
    pub(crate) fn push_reading(
        &mut self,
        alloc: Global,
        steps: Items<Step>,
        spot: Spot,
    ) -> Result<(), AllocError>
        requires room { spot.first + 1 < 4_294_967_296 }
        ensures made { OnOk result (made self.new ≡ made self.old ++ with_first (ends_left self.old) (map step_rule steps ∷ (end_step (spot.first + 1) spot.next ∷ []) ∷ [])) }
        ensures ends { OnOk result (ends_left self.new ≡ []) }
        ensures tasks { OnOk result (tasks_left self.new ≡ tasks_left self.old) }
    {
        self.push_state(steps)?;
        self.push_ending(alloc, spot.first + 1, spot.next)
    }
}
