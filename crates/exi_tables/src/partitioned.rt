use crate::added::{Added, AddedLists};
use crate::first_tables::FirstTables;
use crate::standing::Standing;
use crate::tables::Tables;
use crate::texts::Texts;
use crate::value_store::ValueStore;
use exi_names::{NameId, Txt};
use std::alloc::{AllocError, Global};
use std::marker::Model;

/// String tables: first ones, which others share, what was added to their lists, and a store of values.
///
/// A text that was added is found without a look at the first ones.
#[derive(Drop)]
pub struct Partitioned<T: Texts + Drop, V: ValueStore + Drop> {
    alloc: Global,
    first: FirstTables,
    uris: Added<T>,
    locals: AddedLists<T>,
    prefixes: AddedLists<T>,
    values: V,
}

impl<T: Texts + Drop, V: ValueStore + Drop> Model for Partitioned<T, V> {
    ghost use Rattle.exi_tables.specs.Added.{IsJoined, joined};
    ghost use Rattle.exi_tables.specs.Partitions.{Partitions};

    ghost Value = { Partitions };

    ghost view = { λ t. record {
      namespaces = joined t.first t.uris t.locals t.prefixes;
      values = V.table t.values;
    } };

    ghost invariant = { λ t. IsJoined t.first t.uris t.locals t.prefixes };
}

impl<T: Texts + Drop, V: ValueStore + Drop> Tables for Partitioned<T, V> {
    ghost held = { λ t. t };

    fn start(
        alloc: Global,
        first: FirstTables,
        most: Option<u128>,
        capacity: Option<u128>,
    ) -> Partitioned<T, V> {
        Partitioned {
            alloc,
            uris: Added::new(alloc, first.uris()),
            locals: AddedLists::new(alloc),
            prefixes: AddedLists::new(alloc),
            values: V::new(alloc, most, capacity),
            first,
        }
    }

    fn restart(&mut self, first: FirstTables, most: Option<u128>, capacity: Option<u128>) {
        self.uris.clear(first.uris());
        self.locals.clear();
        self.prefixes.clear();
        self.values.restart(most, capacity);
        self.first = first;
    }

    fn uris(&self) -> u32 {
        self.uris.count()
    }

    fn uri_at(&self, place: u32) -> Option<&Txt> {
        match self.uris.at(place) {
            Some(text) => Some(text),
            None => self.first.uri_at(place),
        }
    }

    fn uri_of(&self, text: &Txt) -> Option<u32> {
        match self.uris.of(text) {
            Some(place) => Some(place),
            None => self.first.uri_of(text),
        }
    }

    fn least_uri(&self, place: u32) -> u32 {
        match self.uris.least(place) {
            Some(least) => least,
            None => self.first.least_uri(place).unwrap(),
        }
    }

    fn add_uri(&mut self, text: Txt) -> Result<u32, AllocError> {
        let place = self.uris();
        let least = self.first.uri_of(&text).unwrap_or(place);
        self.uris.push(self.first.uris(), text, least)?;
        Ok(place)
    }

    fn locals(&self, uri: u32) -> u32 {
        match self.locals.count(uri) {
            Some(count) => count,
            None => self.first.locals(uri),
        }
    }

    fn local_at(&self, uri: u32, place: u32) -> Option<&Txt> {
        match self.locals.at(uri, place) {
            Some(text) => Some(text),
            None => self.first.local_at(uri, place),
        }
    }

    fn local_of(&self, uri: u32, text: &Txt) -> Option<u32> {
        match self.locals.of(uri, text) {
            Some(place) => Some(place),
            None => self.first.local_of(uri, text),
        }
    }

    fn least_local(&self, uri: u32, place: u32) -> u32 {
        match self.locals.least(uri, place) {
            Some(least) => least,
            None => self.first.least_local(uri, place).unwrap(),
        }
    }

    fn add_local(&mut self, uri: u32, text: Txt) -> Result<u32, AllocError> {
        let place = self.locals(uri);
        let first = self.first.locals(uri);
        let least = self.first.local_of(uri, &text).unwrap_or(place);
        self.locals.push(self.alloc, uri, first, text, least)?;
        Ok(place)
    }

    fn prefixes(&self, uri: u32) -> u32 {
        match self.prefixes.count(uri) {
            Some(count) => count,
            None => self.first.prefixes(uri),
        }
    }

    fn prefix_at(&self, uri: u32, place: u32) -> Option<&Txt> {
        match self.prefixes.at(uri, place) {
            Some(text) => Some(text),
            None => self.first.prefix_at(uri, place),
        }
    }

    fn prefix_of(&self, uri: u32, text: &Txt) -> Option<u32> {
        match self.prefixes.of(uri, text) {
            Some(place) => Some(place),
            None => self.first.prefix_of(uri, text),
        }
    }

    fn add_prefix(&mut self, uri: u32, text: Txt) -> Result<u32, AllocError> {
        let place = self.prefixes(uri);
        let first = self.first.prefixes(uri);
        let least = self.first.prefix_of(uri, &text).unwrap_or(place);
        self.prefixes.push(self.alloc, uri, first, text, least)?;
        Ok(place)
    }

    fn values(&self) -> u32 {
        self.values.count()
    }

    fn value_at(&self, place: u32) -> Option<&Txt> {
        self.values.at(place)
    }

    fn value_place(&self, text: &Txt) -> Option<u32> {
        self.values.of(text)
    }

    fn name_values(&self, name: NameId) -> u32 {
        self.values.given(name)
    }

    fn name_value_at(&self, name: NameId, place: u32) -> Option<&Txt> {
        self.values.own_at(name, place)
    }

    fn own_number(&self, name: NameId) -> Option<usize> {
        self.values.number(name)
    }

    fn numbered_values(&self, name: NameId, number: usize) -> u32 {
        self.values.numbered_given(name, number)
    }

    fn numbered_value_at(&self, name: NameId, number: usize, place: u32) -> Option<&Txt> {
        self.values.numbered_at(name, number, place)
    }

    fn name_value_place(&self, name: NameId, text: &Txt) -> Option<u32> {
        self.values.own_of(name, text)
    }

    fn value_standing(&self, name: NameId, text: &Txt) -> Standing {
        self.values.standing(name, text)
    }

    fn add_value(&mut self, name: NameId, text: Txt) -> Result<(), AllocError> {
        self.values.add(name, text)?;
        Ok(())
    }
}
