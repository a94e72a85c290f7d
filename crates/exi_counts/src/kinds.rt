//! What the grammars of types count.

ghost use Rattle.std.specs.Prelude.{◌≡◌, ◌<◌, ◌+◌, All, IfOk, length, map, min, suc, if◌then◌else◌};
ghost use Rattle.xsd_model.specs.Parts.{IsSchemaParts};
ghost use Rattle.exi_inherited.specs.Contents.{content_of};
ghost use Rattle.exi_inherited.specs.Shown.{whole_of};
ghost use Rattle.exi_counts.specs.Counts.{content_states, most_states, states_of, sum_of, type_states};
ghost use Rattle.exi_counts.specs.Sizes.{few as few_states};
ghost use Rattle.exi_counts.specs.Kinds.{AreParticlesOf};

use crate::counts::Counts;
use crate::size::{few, few_more};
use exi_inherited::{Whole, content_of, uses_of};
use std::alloc::{AllocError, Global};
use xsd_model::TypeBody;

impl<'a> Counts<'a> {
    /// The states of these particles one after another, behind so many.
    fn states_behind(&self, start: u32, particles: &[u32]) -> u32
        requires there { All (λ place. place < length self.now.particles) particles.now }
        ensures { result ≡ few_states (start + sum_of (map (states_of self.now) particles.now)) }
    {
        let mut total = few(u64::from(start));
        for particle in particles {
            total = few_more(total, self.states(*particle));
        }
        total
    }

    /// The states of a content.
    fn content_states(&self, content: &Whole) -> u32
        requires there { AreParticlesOf self.now (whole_of content.now) }
        ensures { result ≡ few_states (content_states self.now (whole_of content.now)) }
    {
        match content {
            Whole::Value(_) => 2,
            Whole::Elements { any, particles, .. } => {
                if *any {
                    self.states_behind(2, particles.as_slice())
                } else if particles.as_slice().is_empty() {
                    1
                } else {
                    self.states_behind(0, particles.as_slice())
                }
            }
        }
    }

    /// The states of a type's content, or of none.
    fn content_count(&self, alloc: Global, of: u32, empty: bool) -> Result<u32, AllocError>
        requires schema { IsSchemaParts self.now }
        ensures { IfOk result (λ n. n ≡ few_states (if empty then 1 else content_states self.now (content_of self.now of))) }
    {
        if empty {
            return Ok(1);
        }
        let content = content_of(alloc, self.elements().parts(), of)?;
        Ok(self.content_states(&content))
    }

    /// How many states the grammar of the type at a place has, which has to exist, or its empty form; one more than
    /// [`MOST_STATES`](crate::MOST_STATES) where there are more.
    ///
    /// # Errors
    ///
    /// `AllocError` where memory is refused.
    pub fn type_states(&self, alloc: Global, of: u32, empty: bool) -> Result<u32, AllocError>
        requires exists { of < length self.now.types }
        ensures { IfOk result (λ n. n ≡ min (type_states self.now of empty) (suc most_states)) }
    {
        let parts = self.elements().parts();
        match &parts.types()[of as usize].body {
            TypeBody::Simple { .. } => Ok(if empty { 1 } else { 2 }),
            TypeBody::Ur => Ok(2),
            TypeBody::Complex(complex) => {
                let uses = few(uses_of(alloc, parts, of)?.as_slice().len() as u64);
                let wild = u64::from(complex.wild.is_some());
                let content = self.content_count(alloc, of, empty)?;
                Ok(few(2 * u64::from(uses) + wild + u64::from(content)))
            }
        }
    }
}
