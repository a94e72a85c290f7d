//! Listing and marking the elements whose paths end.

ghost use Rattle.std.specs.Prelude.{◌≡◌, ◌<◌, true, false, [], IfOk, OnOk, length};
ghost use Rattle.std.proofs.Math.ListN.{replicate};
ghost use Rattle.xsd_paths.specs.Marks.{AreKnown, AreSettled, AreWhole, is_due, is_marked, is_ready, listed, marked};
ghost use Rattle.xsd_paths.specs.Paths.{IsOrder, leads_to};

use crate::visit::visiting_order;
use std::alloc::{AllocError, Global};
use xsd_steps::Steps;

/// The elements of which it is known that their paths end.
#[derive(Debug, Drop)]
pub(crate) struct Known {
    /// Their places, each behind all that its steps lead to.
    pub order: Vec<u32>,
    /// A mark for each element of the document.
    pub marks: Vec<bool>,
}

/// Whether a step leads to an element that is marked.
pub(crate) fn leads_to_marked(marks: &[bool], step: Option<u32>) -> bool
    ensures { result ≡ leads_to (is_marked marks.now) step }
{
    match step {
        Some(place) => match marks.get(place as usize) {
            Some(mark) => *mark,
            None => false,
        },
        None => false,
    }
}

/// Whether each step of the element at a place leads to one that is marked.
#[tactic(auto, unfolding(crate::specs::Marks::is_ready))]
fn is_ready(steps: &Steps<'_>, marks: &[bool], place: u32) -> bool
    ensures { result ≡ is_ready steps.now marks.now place }
{
    for step in steps.steps(place) {
        if !leads_to_marked(marks, *step) {
            return false;
        }
    }
    true
}

/// Whether the element at a place is not marked yet and may be.
#[tactic(auto, unfolding(crate::specs::Marks::is_due))]
fn is_due(steps: &Steps<'_>, marks: &[bool], place: u32) -> bool
    ensures due { result ≡ is_due steps.now marks.now place }
    ensures there { result ≡ true → place < length marks.now }
{
    (place as usize) < marks.len() && !marks[place as usize] && is_ready(steps, marks, place)
}

impl Known {
    /// None of so many elements.
    fn none(alloc: Global, count: usize) -> Result<Known, AllocError>
        ensures order { IfOk result (λ k. k.order.items ≡ []) }
        ensures marks { IfOk result (λ k. k.marks.items ≡ replicate count false) }
    {
        Ok(Known {
            order: Vec::new(alloc),
            marks: vec![in alloc; false; count]?,
        })
    }

    /// Lists and marks the element at a place where that is due.
    fn look(&mut self, steps: &Steps<'_>, place: u32) -> Result<(), AllocError>
        ensures order { OnOk result (self.new.order.items ≡ listed steps.now self.old.marks.items place self.old.order.items) }
        ensures marks { OnOk result (self.new.marks.items ≡ marked steps.now self.old.marks.items place) }
    {
        if is_due(steps, self.marks.as_slice(), place) {
            self.order.push(place)?;
            self.marks[place as usize] = true;
        }
        Ok(())
    }

    /// Looks at each of these elements.
    fn look_at_each(&mut self, steps: &Steps<'_>, places: &[u32]) -> Result<(), AllocError>
        requires known { AreKnown steps.now self.old.order.items self.old.marks.items }
        ensures { OnOk result (AreKnown steps.now self.new.order.items self.new.marks.items) }
    {
        for place in places {
            self.look(steps, *place)?;
        }
        Ok(())
    }

    /// Looks at all elements, and whether one was due.
    fn look_at_all(&mut self, steps: &Steps<'_>) -> Result<bool, AllocError>
        requires known { AreKnown steps.now self.old.order.items self.old.marks.items }
        ensures known { OnOk result (AreKnown steps.now self.new.order.items self.new.marks.items) }
        ensures more { IfOk result (λ more. more ≡ true → length self.old.order.items < length self.new.order.items) }
        ensures settled { IfOk result (λ more. more ≡ false → AreSettled (length steps.now) steps.now self.new.marks.items) }
    {
        let before = self.order.len();
        for place in 0..steps.schema().document().nodes().len() {
            self.look(steps, place as u32)?;
        }
        Ok(before < self.order.len())
    }

    /// Looks at all elements until none is due.
    fn finish(&mut self, steps: &Steps<'_>) -> Result<(), AllocError>
        requires known { AreKnown steps.now self.old.order.items self.old.marks.items }
        ensures known { OnOk result (AreKnown steps.now self.new.order.items self.new.marks.items) }
        ensures settled { OnOk result (AreSettled (length steps.now) steps.now self.new.marks.items) }
    {
        loop {
            if !self.look_at_all(steps)? {
                return Ok(());
            }
        }
    }

    /// The elements of a schema whose paths end.
    ///
    /// # Errors
    ///
    /// `AllocError` where memory is refused.
    pub(crate) fn of(alloc: Global, steps: &Steps<'_>) -> Result<Known, AllocError>
        ensures order { IfOk result (λ k. IsOrder steps.now k.order.items) }
        ensures whole { IfOk result (λ k. AreWhole steps.now k.marks.items) }
    {
        let count = steps.schema().document().nodes().len();
        let mut known = Known::none(alloc, count)?;
        let visit = visiting_order(alloc, steps, count)?;
        known.look_at_each(steps, visit.as_slice())?;
        known.finish(steps)?;
        Ok(known)
    }
}
