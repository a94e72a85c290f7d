ghost use Rattle.std.specs.Prelude.{◌≡◌, ◌<◌, ◌-◌, ◌^◌, IfOk, length, min, suc};
ghost use Rattle.exi_counts.specs.Counts.{most_states, particles_of, states_of};
ghost use Rattle.exi_counts.specs.Sizes.{sized};

use crate::settling::sizes_of;
use crate::size::{ONE_STATE, Size};
use exi_elements::Elements;
use std::alloc::{AllocError, Global};
use std::marker::Model;

/// The most states of one grammar, and of all normal grammars of a schema together.
pub const MOST_STATES: u32 = 65_536;

/// The counts of a schema's particles and types.
#[derive(Debug, Drop)]
pub struct Counts<'a> {
    elements: &'a Elements<'a>,
    /// What each particle counts for.
    sizes: Vec<Option<Size>>,
}

impl<'a> Model for Counts<'a> {
    ghost use Rattle.xsd_model.specs.Parts.{Parts};
    ghost use Rattle.exi_counts.specs.Sizes.{AreWhole};

    ghost Value = { Parts };

    ghost use Rattle.exi_names.proofs.Codes.{representation_code};
    ghost use Rattle.std.specs.Coded.{codes};

    ghost coded = { Prim.hlevel (codes, representation_code) };

    ghost view = { λ c. c.elements.now };

    ghost invariant = { λ c. AreWhole c.elements.now c.sizes.items };
}

impl<'a> Counts<'a> {
    /// Those of these elements' schema.
    ///
    /// # Errors
    ///
    /// `AllocError` where memory is refused.
    pub fn of(alloc: Global, elements: &'a Elements<'a>) -> Result<Counts<'a>, AllocError>
        ensures { IfOk result (λ c. c ≡ elements.now) }
    {
        let count = elements.parts().particles().len();
        // More would fill the memory many times over.
        if count > u32::MAX as usize {
            return Err(AllocError);
        }
        let sizes = sizes_of(alloc, elements, count as u32)?;
        Ok(Counts { elements, sizes })
    }

    /// The elements.
    pub fn elements(&self) -> &Elements<'a>
        ensures { result.now ≡ self.now }
    {
        self.elements
    }

    /// What the particle at a place counts for.
    fn size(&self, particle: u32) -> Size
        requires exists { particle < length self.now.particles }
        ensures { result ≡ sized (states_of self.now particle) (particles_of self.now particle) }
    {
        match self.sizes[particle as usize] {
            Some(size) => size,
            None => ONE_STATE,
        }
    }

    /// How many states the particle at a place has, which has to exist; one more than [`MOST_STATES`] where there are more.
    pub fn states(&self, particle: u32) -> u32
        requires exists { particle < length self.now.particles }
        ensures { result ≡ min (states_of self.now particle) (suc most_states) }
    {
        self.size(particle).states
    }

    /// How many particles of elements with places of their own stand in the particle at a place, which has to exist; at most
    /// 2^32 - 1 are told.
    pub fn particles(&self, particle: u32) -> u32
        requires exists { particle < length self.now.particles }
        ensures { result ≡ min (particles_of self.now particle) (2 ^ 32 - 1) }
    {
        self.size(particle).particles
    }
}
