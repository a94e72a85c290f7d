//! The states of a normal grammar, as the lists that they are.

ghost use Rattle.std.specs.Prelude.{◌≡◌, ◌<◌, [], IfOk, OnOk, get_or, length};
ghost use Rattle.exi_normal.specs.Normals.{number_of, with_list};

use indexmap::IndexSet;
use std::alloc::{AllocError, Global};
use std::marker::Model;

/// Lists in the order in which they are first reached, each once.
#[derive(Drop)]
pub(crate) struct Lists {
    lists: IndexSet<Vec<u32>>,
}

impl Model for Lists {
    ghost use Rattle.std.specs.Prelude.{List, ℕ, map};

    ghost Value = { List (List ℕ) };

    ghost view = { λ l. map (λ v. v.items) l.lists.keys };
}

/// A list of its own.
fn copy_of(alloc: Global, list: &[u32]) -> Result<Vec<u32>, AllocError>
    ensures { IfOk result (λ v. v.items ≡ list.now) }
{
    let mut copy = Vec::with_capacity(alloc, list.len())?;
    for state in list {
        copy.push(*state)?;
    }
    Ok(copy)
}

impl Lists {
    /// None.
    pub fn new(alloc: Global) -> Lists
        ensures { result ≡ [] }
    {
        Lists {
            lists: IndexSet::new(alloc),
        }
    }

    /// How many there are.
    pub fn count(&self) -> usize
        ensures { result ≡ length self.now }
    {
        self.lists.len()
    }

    /// The list at a place.
    pub fn get(&self, place: usize) -> &[u32]
        ensures { result.now ≡ get_or self.now place [] }
    {
        match self.lists.get_index(place) {
            Some(list) => list.as_slice(),
            None => &[],
        }
    }

    /// The place of a list, which comes last where it is new.
    ///
    /// # Errors
    ///
    /// `AllocError` where memory is refused.
    pub fn number(&mut self, alloc: Global, list: &[u32]) -> Result<usize, AllocError>
        ensures number { IfOk result (λ n. n ≡ number_of list.now self.old) }
        ensures within { IfOk result (λ n. n < length self.new) }
        ensures lists { OnOk result (self.new ≡ with_list list.now self.old) }
    {
        match self.lists.get_index_of(list) {
            Some(place) => Ok(place),
            None => {
                let copy = copy_of(alloc, list)?;
                let (place, _) = self.lists.insert_full(copy)?;
                Ok(place)
            }
        }
    }
}
