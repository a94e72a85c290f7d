ghost use Rattle.std.specs.Prelude.{◌≡◌, IfOk};
ghost use Rattle.xsd_paths.specs.Paths.{IsOrder, has_whole_groups, is_whole, is_whole_type, leads_to};

use crate::known::Known;
use std::alloc::{AllocError, Global};
use std::marker::Model;
use xsd_components::{Schema, TypeAt};
use xsd_derivations::attribute_groups_named;
use xsd_steps::Steps;

/// A schema document, with those of its components whose paths end.
#[derive(Debug, Drop)]
pub struct Paths<'a> {
    steps: &'a Steps<'a>,
    known: Known,
}

impl<'a> Model for Paths<'a> {
    ghost use Rattle.std.specs.Prelude.{List};
    ghost use Rattle.xsd_paths.specs.Marks.{AreWhole};
    ghost use Rattle.xsd_paths.specs.Paths.{IsOrder};
    ghost use Rattle.xsd_tree.specs.declared.node.Node.{Node};

    ghost Value = { List Node };

    ghost view = { λ p. p.steps.now };

    ghost invariant = { λ p. IsOrder p.steps.now p.known.order.items × AreWhole p.steps.now p.known.marks.items };
}

impl<'a> Paths<'a> {
    /// The paths of a schema.
    ///
    /// # Errors
    ///
    /// `AllocError` where memory is refused.
    pub fn of(alloc: Global, steps: &'a Steps<'a>) -> Result<Paths<'a>, AllocError>
        ensures { IfOk result (λ p. p ≡ steps.now) }
    {
        let known = Known::of(alloc, steps)?;
        Ok(Paths { steps, known })
    }

    /// The steps.
    pub fn steps(&self) -> &Steps<'a>
        ensures { result.now ≡ self.now }
    {
        self.steps
    }

    /// The schema.
    pub fn schema(&self) -> &Schema<'a>
        ensures { result.now ≡ self.now }
    {
        self.steps.schema()
    }

    /// The places of the elements whose paths end, each behind all that its steps lead to.
    pub fn order(&self) -> &[u32]
        ensures { IsOrder self.now result.now }
    {
        self.known.order.as_slice()
    }

    /// Whether each path from the element at a place ends, and what it names is there.
    pub fn is_whole(&self, place: u32) -> bool
        ensures { result ≡ is_whole self.now place }
    {
        match self.known.marks.get(place as usize) {
            Some(whole) => *whole,
            None => true,
        }
    }

    /// Whether each path from a type ends, and what it names is there.
    pub fn is_whole_type(&self, of: TypeAt) -> bool
        ensures { result ≡ is_whole_type self.now of }
    {
        match of {
            TypeAt::Built(_) => true,
            TypeAt::Node(place) => self.is_whole(place),
        }
    }

    /// Whether the element that is named is there, and each path from it ends.
    fn leads_to_whole(&self, named: Option<u32>) -> bool
        ensures { result ≡ leads_to (is_whole self.now) named }
    {
        match named {
            Some(place) => self.is_whole(place),
            None => false,
        }
    }

    /// Whether the groups of attributes that the element at a place names are there, and each path from them ends.
    ///
    /// # Errors
    ///
    /// `AllocError` where memory is refused.
    pub fn has_whole_groups(&self, alloc: Global, place: u32) -> Result<bool, AllocError>
        ensures { IfOk result (λ b. b ≡ has_whole_groups self.now place) }
    {
        let named = attribute_groups_named(alloc, self.schema(), place)?;
        for group in named.as_slice() {
            if !self.leads_to_whole(*group) {
                return Ok(false);
            }
        }
        Ok(true)
    }
}
