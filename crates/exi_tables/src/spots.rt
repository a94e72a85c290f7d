ghost use Rattle.std.specs.Prelude.{◌≡◌, ◌≢◌, ◌≤◌, ◌||◌, ℕ, true, nat_eq, IsTrue, IsFalse, OnOk, OnErr};
ghost use Rattle.exi_tables.specs.Spots.{is_listed, is_spot};

use indexmap::IndexMap;
use std::alloc::{AllocError, Global};
use std::collections::BTreeSet;
use std::marker::Model;

/// Places, of which there is at least one.
#[derive(Drop)]
pub struct Spots {
    least: u32,
    more: BTreeSet<u32>,
}

impl Model for Spots {
    ghost use Rattle.std.specs.Prelude.{◌≡◌, ◌<◌, ℕ, true};
    ghost use Rattle.exi_tables.specs.Spots.{SpotSet, holds};

    ghost Value = { SpotSet };

    ghost view = { λ s. record { least = s.least; more = s.more.keys } };

    ghost invariant = { λ s. (place : ℕ) → holds s.more.keys place ≡ true → s.least < place };
}

impl Spots {
    /// This place alone.
    fn one(alloc: Global, place: u32) -> Spots
        ensures { (other : ℕ) → is_spot result other ≡ nat_eq other place }
    {
        Spots {
            least: place,
            more: BTreeSet::new(alloc),
        }
    }

    /// The least place.
    pub fn least(&self) -> u32
        ensures least { result ≡ self.now.least }
        ensures below { (place : ℕ) → is_spot self.now place ≡ true → result ≤ place }
    {
        self.least
    }

    /// The other places.
    pub fn more(&self) -> &BTreeSet<u32>
        ensures { result.now.keys ≡ self.now.more }
    {
        &self.more
    }

    /// Adds a place.
    fn insert(&mut self, place: u32) -> Result<(), AllocError>
        ensures ok { OnOk result ((other : ℕ) →
            is_spot self.new other ≡ (nat_eq other place || is_spot self.old other)) }
        ensures err { OnErr result (self.new ≡ self.old) }
    {
        if place == self.least {
            return Ok(());
        }
        if place < self.least {
            self.more.insert(self.least)?;
            self.least = place;
            return Ok(());
        }
        self.more.insert(place)?;
        Ok(())
    }

    /// Removes a place, unless it is the last. Whether it is.
    fn remove(&mut self, place: u32) -> bool
        ensures kept { IsFalse result → (other : ℕ) → other ≢ place →
            is_spot self.new other ≡ is_spot self.old other }
        ensures last { IsTrue result → (other : ℕ) →
            is_spot self.old other ≡ true → other ≡ place }
    {
        if place != self.least {
            self.more.remove(&place);
            return false;
        }
        match self.more.pop_first() {
            Some(next) => {
                self.least = next;
                false
            }
            None => true,
        }
    }
}

/// Lists a place under a hash.
pub fn list_place(
    index: &mut IndexMap<u64, Spots>,
    alloc: Global,
    hash: u64,
    place: u32,
) -> Result<(), AllocError>
    ensures ok { OnOk result (is_listed index.new.entries hash place ≡ true) }
    ensures kept { (other p : ℕ) → is_listed index.old.entries other p ≡ true →
        is_listed index.new.entries other p ≡ true }
{
    if let Some(spots) = index.get_mut(&hash) {
        spots.insert(place)?;
        return Ok(());
    }
    index.insert(hash, Spots::one(alloc, place))?;
    Ok(())
}

/// Lists a place under a hash no longer.
pub fn unlist_place(index: &mut IndexMap<u64, Spots>, hash: u64, place: u32)
    ensures { (other p : ℕ) → is_listed index.old.entries other p ≡ true →
        (other ≡ hash → p ≢ place) → is_listed index.new.entries other p ≡ true }
{
    let Some(spots) = index.get_mut(&hash) else {
        return;
    };
    if spots.remove(place) {
        index.swap_remove(&hash);
    }
}
