ghost use Rattle.std.specs.Prelude.{◌≡◌, ◌<◌, ◌+◌, ◌-◌, ◌^◌, ◌∷◌, [], ℕ, None, Some, length, IfOk, OnOk, OnErr};
ghost use Rattle.std.specs.Option.{option_copied};
ghost use Rattle.exi_names.specs.declared.names.NameId.{NameId as Name};
ghost use Rattle.exi_tables.specs.Kept.{IsForgotten, givens, kept_in, kept_place, row_of, with_place, without_place};
ghost use Rattle.exi_tables.specs.Values.{given_to, name_place, one_more};

use exi_names::{NameId, NameMap};
use std::alloc::{AllocError, Global};
use std::collections::VecDeque;
use std::marker::Model;

/// For how many places under a name room is kept at most.
const SPARE: usize = 16;

/// The places given under a name. Of the last of them, from `first` on, the places among all are kept.
#[derive(Drop)]
struct OwnRow {
    name: NameId,
    first: u32,
    places: VecDeque<u32>,
}

impl Model for OwnRow {
    ghost use Rattle.std.specs.Prelude.{◌<◌, ◌+◌, ◌^◌, length};
    ghost use Rattle.exi_tables.specs.Kept.{Row};

    ghost Value = { Row };

    ghost view = { λ r. record { name = r.name; first = r.first; places = r.places.items } };

    ghost invariant = { λ r. r.first + length r.places.items < 2 ^ 32 };
}

impl OwnRow {
    /// The first place under a name, in this room.
    fn one(mut places: VecDeque<u32>, name: NameId, global: u32) -> Result<OwnRow, AllocError>
        ensures { IfOk result (λ row.
            row ≡ record { name = name; first = 0; places = global ∷ [] }) }
    {
        places.clear();
        places.push_back(global)?;
        Ok(OwnRow {
            name,
            first: 0,
            places,
        })
    }

    /// How many places were given.
    fn count(&self) -> u32
        ensures { result ≡ self.now.first + length self.now.places }
    {
        self.first + self.places.len() as u32
    }

    /// The place among all that is kept for a place under the name.
    fn get(&self, local: u32) -> Option<u32>
        ensures { result ≡ kept_in self.now local }
    {
        if local < self.first {
            return None;
        }
        self.places.get((local - self.first) as usize).copied()
    }

    /// Gives one more place.
    fn push(&mut self, global: u32) -> Result<(), AllocError>
        requires { self.old.first + length self.old.places < 2 ^ 32 - 1 }
        ensures ok { OnOk result (self.new ≡ with_place global self.old) }
        ensures err { OnErr result (self.new ≡ self.old) }
    {
        self.places.push_back(global)?;
        Ok(())
    }

    /// Keeps no place among all for a place under the name, where it is the first that is kept.
    fn forget(&mut self, local: u32)
        ensures { self.new ≡ without_place local self.old }
    {
        if local != self.first {
            return;
        }
        if self.places.pop_front().is_none() {
            return;
        }
        self.first += 1;
        let len = self.places.len();
        if self.places.capacity() / 4 > len {
            self.places.shrink_to(len);
        }
    }
}

/// The places given under each name.
///
/// Look-ups go by the places of the name's URI and local name, and then by the place under it.
#[derive(Drop)]
pub struct OwnPlaces {
    numbers: NameMap<usize>,
    rows: Vec<OwnRow>,
    /// The room of rows that were cleared.
    spares: Vec<VecDeque<u32>>,
}

impl Model for OwnPlaces {
    ghost use Rattle.std.specs.Prelude.{List};
    ghost use Rattle.exi_tables.specs.Kept.{IsNumbered, Row, givens};

    ghost Value = { List Row };

    ghost view = { λ o. o.rows.items };

    ghost invariant = { λ o. IsNumbered o.numbers (givens o.rows.items) };
}

impl OwnPlaces {
    /// None.
    pub fn new(alloc: Global) -> OwnPlaces
        ensures { result ≡ [] }
    {
        OwnPlaces {
            numbers: NameMap::new(alloc),
            rows: Vec::new(alloc),
            spares: Vec::new(alloc),
        }
    }

    /// Removes all, and keeps room for each name's next few places.
    pub fn clear(&mut self, alloc: Global)
        ensures { self.new ≡ [] }
    {
        self.numbers = NameMap::new(alloc);
        while let Some(row) = self.rows.pop() {
            keep(&mut self.spares, row.places);
        }
    }

    /// What was given under a name.
    fn row(&self, name: NameId) -> Option<&OwnRow>
        ensures { option_copied result ≡ row_of name self.now }
    {
        let number = *self.numbers.get(name)?;
        self.rows.get(number)
    }

    /// How many places were given under a name.
    pub fn given(&self, name: NameId) -> u32
        ensures { result ≡ given_to name (givens self.now) }
    {
        match self.row(name) {
            Some(row) => row.count(),
            None => 0,
        }
    }

    /// The number of a name: its place among those under which places were given.
    #[inline]
    pub fn number(&self, name: NameId) -> Option<usize>
        ensures { result ≡ name_place name (givens self.now) }
    {
        self.numbers.get(name).copied()
    }

    /// What was given under the name of a number.
    #[inline]
    fn numbered(&self, name: NameId, number: usize) -> &OwnRow
        requires { name_place name (givens self.now) ≡ Some number }
        ensures { Some result.now ≡ row_of name self.now }
    {
        &self.rows[number]
    }

    /// How many places were given under the name of a number.
    #[inline]
    pub fn given_at(&self, name: NameId, number: usize) -> u32
        requires { name_place name (givens self.now) ≡ Some number }
        ensures { result ≡ given_to name (givens self.now) }
    {
        self.numbered(name, number).count()
    }

    /// The place among all that is kept for a place under the name of a number.
    #[inline]
    pub fn get_at(&self, name: NameId, number: usize, local: u32) -> Option<u32>
        requires { name_place name (givens self.now) ≡ Some number }
        ensures { result ≡ kept_place self.now name local }
    {
        self.numbered(name, number).get(local)
    }

    /// Gives a name's next place, to the value at a place among all.
    ///
    /// # Errors
    ///
    /// `AllocError` where memory is refused; nothing is then given.
    #[inline(always)]
    pub fn push(&mut self, alloc: Global, name: NameId, global: u32) -> Result<u32, AllocError>
        requires { given_to name (givens self.old) < 2 ^ 32 - 1 }
        ensures local { IfOk result (λ local. local ≡ given_to name (givens self.old)) }
        ensures given { OnOk result (givens self.new ≡ one_more name (givens self.old)) }
        ensures there { OnOk result (
            kept_place self.new name (given_to name (givens self.old)) ≡ Some global) }
        ensures others { OnOk result ((n : Name) (local : ℕ) → local < given_to n (givens self.old) →
            kept_place self.new n local ≡ kept_place self.old n local) }
        ensures err { OnErr result (self.new ≡ self.old) }
    {
        if let Some(number) = self.numbers.get(name).copied() {
            let local = self.rows[number].count();
            self.rows[number].push(global)?;
            return Ok(local);
        }
        self.push_first(alloc, name, global)
    }

    /// Gives the first place under a name, as [`OwnPlaces::push`] does.
    #[cold]
    #[inline(never)]
    fn push_first(&mut self, alloc: Global, name: NameId, global: u32) -> Result<u32, AllocError>
        requires { name_place name (givens self.old) ≡ None }
        ensures local { IfOk result (λ local. local ≡ given_to name (givens self.old)) }
        ensures given { OnOk result (givens self.new ≡ one_more name (givens self.old)) }
        ensures there { OnOk result (
            kept_place self.new name (given_to name (givens self.old)) ≡ Some global) }
        ensures others { OnOk result ((n : Name) (local : ℕ) → local < given_to n (givens self.old) →
            kept_place self.new n local ≡ kept_place self.old n local) }
        ensures err { OnErr result (self.new ≡ self.old) }
    {
        let number = self.rows.len();
        self.rows.reserve(1)?;
        self.spares.reserve(number + 1)?;
        let places = self.spares.pop().unwrap_or(VecDeque::new(alloc));
        let row = OwnRow::one(places, name, global)?;
        self.numbers.insert(alloc, name, number)?;
        self.rows.push_reserved(row);
        Ok(0)
    }

    /// Keeps no place among all for a name's place, where it is the first for which one is kept.
    #[cold]
    #[inline(never)]
    pub fn forget(&mut self, name: NameId, local: u32)
        ensures given { givens self.new ≡ givens self.old }
        ensures others { IsForgotten name local self.old self.new }
    {
        if let Some(number) = self.numbers.get(name).copied() {
            self.rows[number].forget(local);
        }
    }
}

/// Keeps the room for a few places, where there is a place for it.
fn keep(spares: &mut Vec<VecDeque<u32>>, mut places: VecDeque<u32>) {
    places.clear();
    places.shrink_to(SPARE);
    if spares.len() < spares.capacity() {
        spares.push_reserved(places);
    }
}
