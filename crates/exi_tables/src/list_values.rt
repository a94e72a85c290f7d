ghost use Rattle.std.specs.Prelude.{◌≡◌, ◌<◌, ◌-◌, ◌^◌, find, OnOk, OnErr};
ghost use Rattle.exi_tables.specs.Values.{given_to, name_place, one_more, stands_under};

use crate::list_texts::narrowed;
use crate::live::{Bounds, Given, Live, least_under, least_value, put};
use crate::value_store::ValueStore;
use exi_names::{NameId, Txt};
use std::alloc::{AllocError, Global};
use std::marker::Model;

/// Values as plain lists, which each look-up but that by the place among all walks.
#[derive(Debug, Drop)]
pub struct ListValues {
    bounds: Bounds,
    live: Vec<Live>,
    next: u32,
    given: Vec<Given>,
}

impl Model for ListValues {
    ghost use Rattle.exi_tables.specs.Values.{ValueTable};
    ghost use Rattle.exi_tables.specs.Kept.{IsRound};

    ghost Value = { ValueTable };

    ghost view = { λ v. record {
      bounds = v.bounds;
      live = v.live.items;
      next = v.next;
      given = v.given.items;
    } };

    ghost invariant = { λ v. IsRound v.bounds v.live.items v.next };
}

impl ValueStore for ListValues {
    ghost table = { λ v. v };

    fn new(alloc: Global, most: Option<u128>, capacity: Option<u128>) -> ListValues {
        ListValues {
            bounds: Bounds { most, capacity },
            live: Vec::new(alloc),
            next: 0,
            given: Vec::new(alloc),
        }
    }

    fn restart(&mut self, most: Option<u128>, capacity: Option<u128>) {
        self.bounds = Bounds { most, capacity };
        self.live.clear();
        self.next = 0;
        self.given.clear();
    }

    fn count(&self) -> u32 {
        self.live.len() as u32
    }

    fn at(&self, place: u32) -> Option<&Txt> {
        match self.live.get(place as usize) {
            Some(value) => Some(&value.text),
            None => None,
        }
    }

    fn of(&self, text: &Txt) -> Option<u32> {
        narrowed(least_value(&self.live, text))
    }

    fn given(&self, name: NameId) -> u32 {
        given_to(&self.given, name)
    }

    fn own_at(&self, name: NameId, place: u32) -> Option<&Txt> {
        match self
            .live
            .iter()
            .find(|value| value.name == name && value.local == place)
        {
            Some(value) => Some(&value.text),
            None => None,
        }
    }

    fn number(&self, name: NameId) -> Option<usize> {
        place_of(&self.given, name)
    }

    fn numbered_given(&self, name: NameId, _number: usize) -> u32 {
        given_to(&self.given, name)
    }

    fn numbered_at(&self, name: NameId, _number: usize, place: u32) -> Option<&Txt> {
        self.own_at(name, place)
    }

    fn own_of(&self, name: NameId, text: &Txt) -> Option<u32> {
        least_under(&self.live, name, text)
    }

    fn add(&mut self, name: NameId, text: Txt) -> Result<(), AllocError> {
        if !self.bounds.adds(&text) {
            return Ok(());
        }
        let local = self.given(name);
        self.live.reserve(1)?;
        count_one(&mut self.given, name)?;
        put(
            &mut self.live,
            self.next as usize,
            Live { name, local, text },
        );
        self.next = self.bounds.after(self.next);
        Ok(())
    }
}

/// Where a name stands.
fn place_of(given: &[Given], name: NameId) -> Option<usize>
    ensures { result ≡ name_place name given.now }
{
    given.iter().position(|given| given.name == name)
}

/// How many places were given under a name.
fn given_to(given: &[Given], name: NameId) -> u32
    ensures { result ≡ given_to name given.now }
{
    match place_of(given, name) {
        Some(place) => given[place].count,
        None => 0,
    }
}

/// Gives one more place under a name.
fn count_one(given: &mut Vec<Given>, name: NameId) -> Result<(), AllocError>
    requires { given_to name given.old.items < 2 ^ 32 - 1 }
    ensures ok { OnOk result (given.new.items ≡ one_more name given.old.items) }
    ensures err { OnErr result (given.new.items ≡ given.old.items) }
{
    match place_of(given, name) {
        Some(place) => given[place].count += 1,
        None => given.push(Given { name, count: 1 })?,
    }
    Ok(())
}
