//! What is told of attributes, from the end of what a type says to its front: of each name the first that is told counts.

ghost use Rattle.std.specs.Prelude.{◌≡◌, ◌++◌, [], Option, IfOk, OnOk, option_to_list, slice_get};
ghost use Rattle.exi_inherited.specs.Told.{group_named, key_pair, leaf, left_of, told_with, told_with_all, use_in};
ghost use Rattle.exi_inherited.specs.Uses.{attribute_pair};

use crate::uses::Use;
use exi_names::{QName, Txt};
use indexmap::IndexMap;
use std::alloc::{AllocError, Global};
use std::marker::Model;
use xsd_model::{AttributeUse, Components};

/// A name as a key: its local name with its URI.
#[derive(Debug, Drop, PartialEq, Eq, Hash)]
pub(crate) struct NameKey {
    pub local: Txt,
    pub uri: Txt,
}

/// The key of a name.
fn key_of(name: &QName) -> Result<NameKey, AllocError>
    ensures { IfOk result (λ k. key_pair k ≡ (name.now.local, name.now.uri)) }
{
    Ok(NameKey {
        local: name.local.copy()?,
        uri: name.uri.copy()?,
    })
}

/// The key of the name of the attribute at a place.
fn attribute_key(alloc: Global, parts: &Components, place: u32) -> Result<NameKey, AllocError>
    ensures { IfOk result (λ k. key_pair k ≡ attribute_pair parts.now place) }
{
    match parts.attributes().get(place as usize) {
        Some(attribute) => key_of(&attribute.name),
        None => Ok(NameKey {
            local: Txt::new(alloc),
            uri: Txt::new(alloc),
        }),
    }
}

/// What was told, in the order in which it was: of each name its use, or that it may not stand.
#[derive(Drop)]
pub(crate) struct Told {
    said: IndexMap<NameKey, Option<Use>>,
}

impl Model for Told {
    ghost use Rattle.std.specs.Prelude.{List, map};
    ghost use Rattle.exi_inherited.specs.Told.{said_entry};
    ghost use Rattle.exi_inherited.specs.Uses.{Said};

    ghost Value = { List Said };

    ghost view = { λ t. map said_entry t.said.entries };
}

impl Told {
    /// Nothing yet.
    pub(crate) fn new(alloc: Global) -> Told
        ensures { result ≡ [] }
    {
        Told {
            said: IndexMap::new(alloc),
        }
    }

    /// Is told what is said of a name.
    fn say(&mut self, name: NameKey, use_of: Option<Use>) -> Result<(), AllocError>
        ensures { OnOk result (self.new ≡ told_with (record { name = key_pair name; use_of = use_of }) self.old) }
    {
        if self.said.contains_key(&name) {
            return Ok(());
        }
        self.said.insert(name, use_of)?;
        Ok(())
    }

    /// Is told what a use says by itself, and gives the group that it names, where it names one.
    pub(crate) fn tell(
        &mut self,
        alloc: Global,
        parts: &Components,
        used: &AttributeUse,
    ) -> Result<Option<u32>, AllocError>
        ensures told { OnOk result (self.new ≡ told_with_all (leaf parts.now used.now) self.old) }
        ensures group { IfOk result (λ g. g ≡ group_named used.now) }
    {
        match used {
            AttributeUse::Use {
                attribute,
                required,
            } => {
                let name = attribute_key(alloc, parts, *attribute)?;
                let used = Use {
                    attribute: *attribute,
                    required: *required,
                };
                self.say(name, Some(used))?;
                Ok(None)
            }
            AttributeUse::Prohibited(name) => {
                self.say(key_of(name)?, None)?;
                Ok(None)
            }
            AttributeUse::Group(group) => Ok(Some(*group)),
        }
    }

    /// The use that was told at a place, where one was.
    fn use_at(&self, place: usize) -> Option<Use>
        ensures { result ≡ use_in (slice_get self.now place) }
    {
        match self.said.get_index(place) {
            Some((_, used)) => *used,
            None => None,
        }
    }

    /// The uses that count, the one told last in front.
    pub(crate) fn uses(&self, alloc: Global) -> Result<Vec<Use>, AllocError>
        ensures { IfOk result (λ uses. uses.items ≡ left_of self.now) }
    {
        let mut uses = Vec::new(alloc);
        let mut left = self.said.len();
        while left > 0 {
            left -= 1;
            push_some(&mut uses, self.use_at(left))?;
        }
        Ok(uses)
    }
}

/// Puts a use at the end, where there is one.
fn push_some(uses: &mut Vec<Use>, used: Option<Use>) -> Result<(), AllocError>
    ensures { OnOk result (uses.new.items ≡ uses.old.items ++ option_to_list used) }
{
    if let Some(used) = used {
        uses.push(used)?;
    }
    Ok(())
}
