ghost use Rattle.std.specs.Prelude.{◌≡◌, ◌<◌, ◌≤◌, ◌^◌, ◌∷◌, Bool, None, Some, if◌then◌else◌, length, reverse, IfOk, OnOk, OnErr};
ghost use Rattle.exi_names.specs.declared.names.NameId.{NameId};
ghost use Rattle.exi_builtin.specs.LeastCodes.{is_named};
ghost use Rattle.exi_builtin.specs.Marks.{Indexes, IsIndexed, kept_at, name_key};

use crate::learnable::Learnable;
use exi_names::NameId;
use indexmap::IndexMap;
use std::alloc::{AllocError, Global};

/// How many productions are compared with a name one by one. Among more it is looked up by hash.
const COMPARED: usize = 8;

/// How the productions that were learned are looked up.
#[derive(Clone, Copy, Debug, PartialEq, Eq)]
pub enum LookUp {
    /// By their codes, as a reader does. Nothing is kept by name, so a look-up by name compares all.
    ByCode,
    /// By their names too, as a writer does.
    ByName,
}

/// A name by which a place is kept; true for an attribute.
#[derive(Clone, Copy, Debug, PartialEq, Eq, Hash)]
pub struct NameKey {
    pub uri: u32,
    pub local: u32,
    pub attribute: bool,
}

/// Where the latest production of each name stands, in the order in which they were learned.
#[derive(Drop)]
pub struct NameIndex {
    pub places: IndexMap<NameKey, u32>,
}

impl NameIndex {
    /// The index of no productions.
    fn new(alloc: Global) -> NameIndex
        ensures { (name : NameId) (attribute : Bool) → kept_at result name attribute ≡ None }
    {
        NameIndex {
            places: IndexMap::new(alloc),
        }
    }

    /// The index of productions in the order in which they were learned.
    ///
    /// # Errors
    ///
    /// `AllocError` where memory is refused.
    pub fn of(alloc: Global, productions: &[Learnable]) -> Result<NameIndex, AllocError>
        requires few { length productions.now ≤ 2 ^ 31 }
        ensures { IfOk result (λ index. Indexes index (reverse productions.now)) }
    {
        let mut index = NameIndex::new(alloc);
        for place in 0..productions.len() {
            index.keep(productions[place], place as u32)?;
        }
        Ok(index)
    }

    /// The place that is kept for a name.
    #[inline]
    pub fn place_of(&self, name: NameId, attribute: bool) -> Option<u32>
        ensures { result ≡ kept_at self.now name attribute }
    {
        self.places.get(&key_of(name, attribute)).copied()
    }

    /// Keeps a place for the name of a production, in place of the one that was kept for it. CH and EE have no name.
    ///
    /// # Errors
    ///
    /// `AllocError` where memory is refused; what is kept for each name is then unchanged.
    pub fn keep(&mut self, production: Learnable, place: u32) -> Result<(), AllocError>
        ensures ok { OnOk result ((name : NameId) (attribute : Bool) →
            kept_at self.new name attribute
            ≡ (if is_named name attribute production then Some place else kept_at self.old name attribute)) }
        ensures err { OnErr result ((name : NameId) (attribute : Bool) →
            kept_at self.new name attribute ≡ kept_at self.old name attribute) }
    {
        match production {
            Learnable::Known(name, attribute) => {
                self.places.insert(key_of(name, attribute), place)?;
                Ok(())
            }
            _ => Ok(()),
        }
    }
}

/// A name as a key.
fn key_of(name: NameId, attribute: bool) -> NameKey
    ensures { result ≡ name_key name attribute }
{
    NameKey {
        uri: name.uri,
        local: name.local,
        attribute,
    }
}

/// Brings the index of what was learned up to one production more. It is made once there are enough to look them up by name.
///
/// # Errors
///
/// `AllocError` where memory is refused; the index is then that of what was learned.
pub fn add_name(
    index: &mut Option<Box<NameIndex>>,
    learned: &[Learnable],
    production: Learnable,
    look_up: LookUp,
    alloc: Global,
) -> Result<(), AllocError>
    requires few { length learned.now < 2 ^ 31 }
    requires indexed { IsIndexed index.old (reverse learned.now) }
    ensures ok { OnOk result (IsIndexed index.new (production ∷ reverse learned.now)) }
    ensures err { OnErr result (IsIndexed index.new (reverse learned.now)) }
{
    let place = learned.len() as u32;
    if let Some(names) = index {
        return names.keep(production, place);
    }
    if look_up == LookUp::ByName && learned.len() >= COMPARED {
        let mut names = NameIndex::of(alloc, learned)?;
        names.keep(production, place)?;
        *index = Some(Box::new(alloc, names)?);
    }
    Ok(())
}
