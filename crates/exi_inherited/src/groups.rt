//! A walk over what uses say, from the end of it to its front, with the groups of attributes that they name.
//!
//! A group that is met again, nearer to the front, says nothing that counts any more: all its names were told. So each is
//! walked once, though one that is named twice by each of twenty others would say a million things.

ghost use Rattle.std.specs.Prelude.{◌≡◌, ◌<◌, ◌≤◌, ◌+◌, ◌∷◌, ◌++◌, [], OnOk, length, option_copied, slice_get};
ghost use Rattle.std.specs.List.{flat_map};
ghost use Rattle.xsd_model.specs.Parts.{AllEnd, attribute_groups_at};
ghost use Rattle.exi_inherited.specs.Told.{told_with_all};
ghost use Rattle.exi_inherited.specs.Uses.{group_uses, said_of};
ghost use Rattle.exi_inherited.specs.Walks.{AreOpen, AreWalked, ending, entered, turns, weight};

use crate::told::Told;
use indexmap::IndexSet;
use std::alloc::{AllocError, Global};
use xsd_model::{AttributeUse, Components};

/// A group that is being walked, and how many of its uses are left, from its front on.
#[derive(Clone, Copy, Debug)]
pub(crate) struct Frame {
    pub group: u32,
    pub left: usize,
}

/// A walk.
#[derive(Drop)]
pub(crate) struct Walk {
    /// What it was told.
    pub told: Told,
    /// The groups that it has walked to their fronts.
    pub walked: IndexSet<u32>,
    /// The groups that it is in, each named by the one before.
    pub frames: Vec<Frame>,
}

/// What the group at a place says.
fn uses_in(parts: &Components, group: u32) -> &[AttributeUse]
    ensures uses { result.now ≡ group_uses parts.now group }
    ensures ends { AllEnd (attribute_groups_at parts.now) (length parts.now.attribute_groups) }
{
    match parts.attribute_groups().get(group as usize) {
        Some(group) => group.uses.as_slice(),
        None => &[],
    }
}

/// The use at a place, where there is one.
fn use_at(uses: &[AttributeUse], place: usize) -> Option<&AttributeUse>
    ensures { option_copied result ≡ slice_get uses.now place }
{
    uses.get(place)
}

impl Walk {
    /// A walk that begins.
    pub(crate) fn new(alloc: Global) -> Walk
        ensures told { result.told ≡ [] }
        ensures walked { result.walked.keys ≡ [] }
        ensures frames { result.frames.items ≡ [] }
    {
        Walk {
            told: Told::new(alloc),
            walked: IndexSet::new(alloc),
            frames: Vec::new(alloc),
        }
    }

    /// Goes into a group, at its end, where it was not walked.
    fn enter(&mut self, parts: &Components, group: u32) -> Result<(), AllocError>
        ensures ends { AllEnd (attribute_groups_at parts.now) (length parts.now.attribute_groups) }
        ensures told { self.new.told ≡ self.old.told }
        ensures walked { self.new.walked.keys ≡ self.old.walked.keys }
        ensures frames { OnOk result (self.new.frames.items ≡ entered parts.now self.old.walked.keys group self.old.frames.items) }
    {
        let left = uses_in(parts, group).len();
        if !self.walked.contains(&group) {
            self.frames.push(Frame { group, left })?;
        }
        Ok(())
    }

    /// Looks at a use.
    fn look_at(
        &mut self,
        alloc: Global,
        parts: &Components,
        used: &AttributeUse,
    ) -> Result<(), AllocError>
        requires walked { AreWalked parts.now self.old.walked.keys self.old.told }
        requires frames { AreOpen parts.now self.old.frames.items (told_with_all (said_of parts.now used.now) self.old.told) }
        ensures walked { OnOk result (AreWalked parts.now self.new.walked.keys self.new.told) }
        ensures frames { OnOk result (AreOpen parts.now self.new.frames.items self.new.told) }
        ensures end { OnOk result
            (ending parts.now self.new.frames.items self.new.told
            ≡ ending parts.now self.old.frames.items (told_with_all (said_of parts.now used.now) self.old.told)) }
        ensures turns { OnOk result (turns parts.now self.new.frames.items ≤ turns parts.now self.old.frames.items + weight parts.now used.now) }
    {
        match self.told.tell(alloc, parts, used)? {
            Some(group) => {
                self.enter(parts, group)?;
                Ok(())
            }
            None => Ok(()),
        }
    }

    /// Goes on in a group: to the use before the last at which it was, or out of it.
    fn turn(&mut self, alloc: Global, parts: &Components, frame: Frame) -> Result<(), AllocError>
        requires walked { AreWalked parts.now self.old.walked.keys self.old.told }
        requires frames { AreOpen parts.now (self.old.frames.items ++ frame ∷ []) self.old.told }
        ensures walked { OnOk result (AreWalked parts.now self.new.walked.keys self.new.told) }
        ensures frames { OnOk result (AreOpen parts.now self.new.frames.items self.new.told) }
        ensures end { OnOk result
            (ending parts.now self.new.frames.items self.new.told
            ≡ ending parts.now (self.old.frames.items ++ frame ∷ []) self.old.told) }
        ensures turns { OnOk result (turns parts.now self.new.frames.items < turns parts.now (self.old.frames.items ++ frame ∷ [])) }
    {
        let uses = uses_in(parts, frame.group);
        if frame.left == 0 {
            self.walked.insert(frame.group)?;
            return Ok(());
        }
        let left = frame.left - 1;
        self.frames.push(Frame {
            group: frame.group,
            left,
        })?;
        match use_at(uses, left) {
            Some(used) => {
                self.look_at(alloc, parts, used)?;
                Ok(())
            }
            None => Ok(()),
        }
    }

    /// Walks what a use says.
    fn walk(
        &mut self,
        alloc: Global,
        parts: &Components,
        used: &AttributeUse,
    ) -> Result<(), AllocError>
        requires walked { AreWalked parts.now self.old.walked.keys self.old.told }
        requires frames { self.old.frames.items ≡ [] }
        ensures walked { OnOk result (AreWalked parts.now self.new.walked.keys self.new.told) }
        ensures frames { OnOk result (self.new.frames.items ≡ []) }
        ensures told { OnOk result (self.new.told ≡ told_with_all (said_of parts.now used.now) self.old.told) }
    {
        self.look_at(alloc, parts, used)?;
        while let Some(frame) = self.frames.pop() {
            self.turn(alloc, parts, frame)?;
        }
        Ok(())
    }

    /// Walks what uses say, from the last to the first.
    pub(crate) fn walk_all(
        &mut self,
        alloc: Global,
        parts: &Components,
        uses: &[AttributeUse],
    ) -> Result<(), AllocError>
        requires walked { AreWalked parts.now self.old.walked.keys self.old.told }
        requires frames { self.old.frames.items ≡ [] }
        ensures walked { OnOk result (AreWalked parts.now self.new.walked.keys self.new.told) }
        ensures frames { OnOk result (self.new.frames.items ≡ []) }
        ensures told { OnOk result (self.new.told ≡ told_with_all (flat_map (said_of parts.now) uses.now) self.old.told) }
    {
        let mut rest = uses;
        while let Some((used, front)) = rest.split_last() {
            self.walk(alloc, parts, used)?;
            rest = front;
        }
        Ok(())
    }
}
