ghost use Rattle.std.specs.Prelude.{◌≡◌, ◌≢◌, ◌<◌, ◌≤◌, ◌-◌, ◌^◌, ℕ, Some, true, length, slice_get, OnOk, OnErr};
ghost use Rattle.std.specs.Option.{option_copied};
ghost use Rattle.exi_names.specs.declared.names.NameId.{NameId as Name};
ghost use Rattle.exi_tables.specs.declared.live.Live.{Live as Value};
ghost use Rattle.exi_tables.specs.Kept.{givens, kept_place};
ghost use Rattle.exi_tables.specs.Values.{given_to, is_added, stands_under, with_added};

use crate::list_texts::narrowed;
use crate::live::{Bounds, Live, least_under, least_value, put};
use crate::own_places::OwnPlaces;
use crate::value_store::ValueStore;
use exi_names::{NameId, Txt};
use std::alloc::{AllocError, Global};
use std::marker::Model;

/// Values by their places, among all and under names. A look-up by text walks them.
///
/// Each live value's text is stored once, at its place among all. What was pushed out is taken out of the
/// places under its name.
#[derive(Drop)]
pub struct PlaceValues {
    alloc: Global,
    bounds: Bounds,
    live: Vec<Live>,
    next: u32,
    own: OwnPlaces,
}

impl Model for PlaceValues {
    ghost use Rattle.exi_tables.specs.Values.{ValueTable};
    ghost use Rattle.exi_tables.specs.Kept.{IsOwned, IsRound, givens};

    ghost Value = { ValueTable };

    ghost view = { λ v. record {
      bounds = v.bounds;
      live = v.live.items;
      next = v.next;
      given = givens v.own;
    } };

    ghost invariant = { λ v. IsRound v.bounds v.live.items v.next × IsOwned v.live.items v.own };
}

impl PlaceValues {
    /// What bounds the values.
    pub fn bounds(&self) -> Bounds
        ensures { result ≡ self.now.bounds }
    {
        self.bounds
    }

    /// The live values, by their places among all.
    pub fn live(&self) -> &[Live]
        ensures live { result.now ≡ self.now.live }
        ensures few { length result.now < 2 ^ 32 }
    {
        &self.live
    }

    /// The place among all that the next value takes.
    pub fn next(&self) -> u32
        ensures next { result ≡ self.now.next }
        ensures within { result ≤ length self.now.live }
    {
        self.next
    }

    /// Adds a value that the bounds allow.
    ///
    /// # Errors
    ///
    /// `AllocError` where memory is refused; the values are then unchanged.
    #[inline(always)]
    pub fn push(&mut self, name: NameId, text: Txt) -> Result<(), AllocError>
        requires added { is_added self.old.bounds text ≡ true }
        requires room { length self.old.live < 2 ^ 32 - 1 }
        requires own { given_to name self.old.given < 2 ^ 32 - 1 }
        ensures added { OnOk result (self.new ≡ with_added self.old name text) }
        ensures err { OnErr result (self.new ≡ self.old) }
    {
        let place = self.next;
        self.live.reserve(1)?;
        let local = self.own.push(self.alloc, name, place)?;
        forget_at(&mut self.own, &self.live, place);
        put(&mut self.live, place as usize, Live { name, local, text });
        self.next = self.bounds.after(place);
        Ok(())
    }
}

impl ValueStore for PlaceValues {
    ghost table = { λ v. v };

    fn new(alloc: Global, most: Option<u128>, capacity: Option<u128>) -> PlaceValues {
        PlaceValues {
            alloc,
            bounds: Bounds { most, capacity },
            live: Vec::new(alloc),
            next: 0,
            own: OwnPlaces::new(alloc),
        }
    }

    fn restart(&mut self, most: Option<u128>, capacity: Option<u128>) {
        self.bounds = Bounds { most, capacity };
        self.live.clear();
        self.next = 0;
        self.own.clear(self.alloc);
    }

    fn count(&self) -> u32 {
        self.live.len() as u32
    }

    fn at(&self, place: u32) -> Option<&Txt> {
        match value_at(&self.live, place) {
            Some(value) => Some(&value.text),
            None => None,
        }
    }

    fn of(&self, text: &Txt) -> Option<u32> {
        narrowed(least_value(&self.live, text))
    }

    fn given(&self, name: NameId) -> u32 {
        self.own.given(name)
    }

    fn own_at(&self, name: NameId, place: u32) -> Option<&Txt> {
        let number = self.own.number(name)?;
        self.numbered_at(name, number, place)
    }

    #[inline]
    fn number(&self, name: NameId) -> Option<usize> {
        self.own.number(name)
    }

    #[inline]
    fn numbered_given(&self, name: NameId, number: usize) -> u32 {
        self.own.given_at(name, number)
    }

    #[inline]
    fn numbered_at(&self, name: NameId, number: usize, place: u32) -> Option<&Txt> {
        let global = self.own.get_at(name, number, place)?;
        let value = value_at(&self.live, global)?;
        if !stands_under(value, name, place) {
            return None;
        }
        Some(&value.text)
    }

    fn own_of(&self, name: NameId, text: &Txt) -> Option<u32> {
        least_under(&self.live, name, text)
    }

    fn add(&mut self, name: NameId, text: Txt) -> Result<(), AllocError> {
        if !self.bounds.adds(&text) {
            return Ok(());
        }
        self.push(name, text)?;
        Ok(())
    }
}

/// Keeps nothing for the place under its name of the value that stands at a place among all.
#[inline]
fn forget_at(own: &mut OwnPlaces, live: &[Live], place: u32)
    ensures given { givens own.new ≡ givens own.old }
    ensures others { (n : Name) (local : ℕ) →
        ((l : Value) → slice_get live.now place ≡ Some l → n ≡ l.name → local ≢ l.local) →
        kept_place own.new n local ≡ kept_place own.old n local }
{
    if let Some(old) = live.get(place as usize) {
        own.forget(old.name, old.local);
    }
}

/// The live value at a place among all.
fn value_at(live: &[Live], place: u32) -> Option<&Live>
    ensures { option_copied result ≡ slice_get live.now place }
{
    live.get(place as usize)
}

/// Whether a value has this place under this name.
fn stands_under(value: &Live, name: NameId, place: u32) -> bool
    ensures { result ≡ stands_under name place value.now }
{
    value.name == name && value.local == place
}
