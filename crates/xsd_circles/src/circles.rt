//! A document with what tells which of its components reach themselves.

ghost use Rattle.std.specs.Prelude.{◌≡◌, false, true, IfOk};
ghost use Rattle.xsd_circles.specs.Circles.{reaches_itself};

use crate::levels::{are_under, level_at, never_rise};
use crate::search::{is_met, searched};
use crate::walk::levels_of;
use std::alloc::{AllocError, Global};
use std::marker::Model;
use xsd_steps::Steps;

/// A schema document, with what tells which of its components reach themselves.
#[derive(Debug, Drop)]
pub struct Circles<'a> {
    steps: &'a Steps<'a>,
    levels: Vec<u32>,
    /// Whether no step leads to a higher level.
    falls: bool,
}

impl<'a> Model for Circles<'a> {
    ghost use Rattle.std.specs.Prelude.{◌≡◌, List, true};
    ghost use Rattle.xsd_circles.specs.Levels.{NeverRise};
    ghost use Rattle.xsd_tree.specs.declared.node.Node.{Node};

    ghost Value = { List Node };

    ghost view = { λ c. c.steps.now };

    ghost invariant = { λ c. c.falls ≡ true → NeverRise c.steps.now c.levels.items };
}

impl<'a> Circles<'a> {
    /// The circles of a schema.
    ///
    /// # Errors
    ///
    /// `AllocError` where memory is refused.
    pub fn of(alloc: Global, steps: &'a Steps<'a>) -> Result<Circles<'a>, AllocError>
        ensures { IfOk result (λ c. c ≡ steps.now) }
    {
        let levels = levels_of(alloc, steps)?;
        let falls = never_rise(levels.as_slice(), steps);
        Ok(Circles {
            steps,
            levels,
            falls,
        })
    }

    /// Whether the levels tell that no path from a place comes back to it.
    fn never_returns(&self, place: u32) -> bool
        ensures { result ≡ true → false ≡ reaches_itself self.now place }
    {
        if self.falls {
            let levels = self.levels.as_slice();
            let level = u64::from(level_at(levels, place));
            are_under(levels, level, self.steps.steps(place))
        } else {
            false
        }
    }

    /// Whether a path from the element at a place comes back to it. All answers `false` together take time in proportion to
    /// the document and its steps; one that is `true` takes as much by itself.
    ///
    /// # Errors
    ///
    /// `AllocError` where memory is refused.
    pub fn reaches_itself(&self, alloc: Global, place: u32) -> Result<bool, AllocError>
        ensures { IfOk result (λ b. b ≡ reaches_itself self.now place) }
    {
        if self.never_returns(place) {
            return Ok(false);
        }
        let met = searched(alloc, self.steps, place)?;
        Ok(is_met(met.as_slice(), place))
    }
}
