ghost use Rattle.std.specs.Prelude.{◌≡◌, ◌<◌, IfOk, length};
ghost use Rattle.exi_elements.specs.StandIns.{opener, stand_ins};

use crate::counted::counts_of;
use crate::members::{members_of, walked};
use crate::named::by_name;
use crate::opening::openers_of;
use exi_gram::Items;
use std::alloc::{AllocError, Global};
use std::marker::Model;
use xsd_model::Components;

/// The elements of a schema, by what may stand for them and by what opens them.
#[derive(Debug, Drop)]
pub struct Elements<'a> {
    parts: &'a Components,
    /// The direct members of each one's substitution group.
    members: Vec<Items<u32>>,
    /// How many may stand for each.
    counts: Vec<u32>,
    /// The first declaration that opens each one's grammar.
    openers: Vec<u32>,
}

impl<'a> Model for Elements<'a> {
    ghost use Rattle.xsd_model.specs.Parts.{Parts};
    ghost use Rattle.exi_elements.specs.Members.{AreTables};

    ghost Value = { Parts };

    ghost use Rattle.exi_names.proofs.Codes.{representation_code};
    ghost use Rattle.std.specs.Coded.{codes};

    ghost coded = { Prim.hlevel (codes, representation_code) };

    ghost view = { λ e. e.parts.now };

    ghost invariant = { λ e. AreTables e.parts.now e.members.items e.counts.items e.openers.items };
}

impl<'a> Elements<'a> {
    /// Those of these components.
    ///
    /// # Errors
    ///
    /// `AllocError` where memory is refused.
    pub fn of(alloc: Global, parts: &'a Components) -> Result<Elements<'a>, AllocError>
        ensures { IfOk result (λ e. e ≡ parts.now) }
    {
        // More would fill the memory many times over.
        if parts.elements().len() > u32::MAX as usize {
            return Err(AllocError);
        }
        let members = members_of(alloc, parts)?;
        let counts = counts_of(alloc, parts, members.as_slice())?;
        let openers = openers_of(alloc, parts)?;
        Ok(Elements {
            parts,
            members,
            counts,
            openers,
        })
    }

    /// The components.
    pub fn parts(&self) -> &Components
        ensures { result.now ≡ self.now }
    {
        self.parts
    }

    /// The places of the element at a place, which has to exist, and of all members of its substitution group (XML Schema 1.0
    /// Part 1, section 2.2.2.2), by the local name, then by the URI.
    ///
    /// # Errors
    ///
    /// `AllocError` where memory is refused.
    pub fn stand_ins(&self, alloc: Global, place: u32) -> Result<Items<u32>, AllocError>
        requires exists { place < length self.now.elements }
        ensures { IfOk result (λ places. places ≡ stand_ins self.now place) }
    {
        let mut start = Vec::new(alloc);
        start.push(place)?;
        let mut places = walked(self.members.as_slice(), start)?;
        places.sort_unstable();
        by_name(alloc, self.parts, places.as_slice())
    }

    /// How many these are.
    pub fn stand_in_count(&self, place: u32) -> u32
        requires exists { place < length self.now.elements }
        ensures { result ≡ length (stand_ins self.now place) }
    {
        self.counts[place as usize]
    }

    /// The place of the first declaration that opens the grammar of the one at a place, which has to exist: it has the same
    /// name and type, and `xsi:nil` can empty both or neither.
    pub fn opener(&self, place: u32) -> u32
        requires exists { place < length self.now.elements }
        ensures { result ≡ opener self.now place }
    {
        self.openers[place as usize]
    }
}
