ghost use Rattle.std.specs.Prelude.{◌≡◌, ◌==◌, ◌<◌, ℕ, [], None, Some, length, slice_index_or};
ghost use Rattle.std.specs.Prelude.{OnOk, OnErr, if◌then◌else◌};
ghost use Rattle.std.specs.Option.{option_copied};
ghost use Rattle.exi_names.specs.declared.names.NameId.{NameId};
ghost use Rattle.exi_names.specs.NameMaps.{kept_for, same_name};

use crate::names::NameId;
use std::alloc::{AllocError, Global};
use std::marker::Model;

/// What is kept for the local names of a URI, by their places.
#[derive(Debug, Drop)]
struct Row<T> {
    items: Vec<Option<T>>,
}

impl<T> Model for Row<T> {
    ghost use Rattle.std.specs.Prelude.{List, Option};

    ghost Value = { List (Option T) };

    ghost view = { λ r. r.items.items };
}

/// A map from names to what is kept for them.
///
/// A look-up goes by the two places of the name, takes one step for each of them, and no memory.
#[derive(Debug, Drop)]
pub struct NameMap<T> {
    rows: Vec<Row<T>>,
}

impl<T> Model for NameMap<T> {
    ghost use Rattle.std.specs.Prelude.{List, Option};

    ghost Value = { List (List (Option T)) };

    ghost view = { λ m. m.rows.items };
}

impl<T: Drop> Row<T> {
    /// Makes room for a local name: nothing is kept for names up to it that are new.
    fn widen(&mut self, local: usize) -> Result<(), AllocError>
        ensures wide { OnOk result (local < length self.new) }
        ensures same { (l : ℕ) → slice_index_or self.new l None ≡ slice_index_or self.old l None }
    {
        while self.items.len() <= local {
            self.items.push(None)?;
        }
        Ok(())
    }

    /// Keeps an item for a local name.
    fn insert(&mut self, local: usize, item: T) -> Result<(), AllocError>
        ensures ok { OnOk result ((l : ℕ) →
            slice_index_or self.new l None
            ≡ (if l == local then Some item else slice_index_or self.old l None)) }
        ensures err { OnErr result ((l : ℕ) →
            slice_index_or self.new l None ≡ slice_index_or self.old l None) }
    {
        self.widen(local)?;
        self.items[local] = Some(item);
        Ok(())
    }
}

impl<T: Drop> NameMap<T> {
    /// The empty map.
    pub fn new(alloc: Global) -> NameMap<T>
        ensures { result ≡ [] }
    {
        NameMap {
            rows: Vec::new(alloc),
        }
    }

    /// What is kept for a name.
    pub fn get(&self, name: NameId) -> Option<&T>
        ensures { option_copied result ≡ kept_for self.now name }
    {
        let row = self.rows.get(name.uri as usize)?;
        row.items.get(name.local as usize)?.as_ref()
    }

    /// Makes room for a URI: nothing is kept for the names of URIs up to it that are new.
    fn widen(&mut self, alloc: Global, uri: usize) -> Result<(), AllocError>
        ensures wide { OnOk result (uri < length self.new) }
        ensures same { (u : ℕ) → slice_index_or self.new u [] ≡ slice_index_or self.old u [] }
    {
        while self.rows.len() <= uri {
            self.rows.push(Row {
                items: Vec::new(alloc),
            })?;
        }
        Ok(())
    }

    /// Keeps an item for a name, in place of what was kept for it.
    ///
    /// # Errors
    ///
    /// `AllocError` where memory is refused; what is kept for each name is then unchanged.
    pub fn insert(&mut self, alloc: Global, name: NameId, item: T) -> Result<(), AllocError>
        ensures ok { OnOk result ((n : NameId) →
            kept_for self.new n
            ≡ (if same_name n name then Some item else kept_for self.old n)) }
        ensures err { OnErr result ((n : NameId) → kept_for self.new n ≡ kept_for self.old n) }
    {
        self.widen(alloc, name.uri as usize)?;
        let row = &mut self.rows[name.uri as usize];
        row.insert(name.local as usize, item)
    }
}
