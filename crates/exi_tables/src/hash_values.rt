ghost use Rattle.std.specs.Prelude.{◌≡◌, ◌≢◌, ℕ, true, Some, position, slice_get};
ghost use Rattle.std.specs.Str.{bytes_eq};
ghost use Rattle.exi_tables.specs.declared.live.Live.{Live};
ghost use Rattle.exi_tables.specs.Kept.{has_text, lesser, local_of, place_of, text_hash};
ghost use Rattle.exi_tables.specs.Spots.{is_listed, is_spot};
ghost use Rattle.exi_tables.specs.Values.{StandsAs, least_under};

use crate::live::{Live, is_value, or_less};
use crate::place_values::PlaceValues;
use crate::spots::{Spots, list_place, unlist_place};
use crate::standing::Standing;
use crate::value_store::ValueStore;
use exi_names::{NameId, Txt};
use indexmap::IndexMap;
use std::alloc::{AllocError, Global};
use std::hash::{FoldHasher, Hash, Hasher};
use std::marker::Model;

/// Values by their places and by hash: beside them, for each hash, the places among all of the live values
/// whose texts have it.
#[derive(Drop)]
pub struct HashValues {
    alloc: Global,
    values: PlaceValues,
    index: IndexMap<u64, Spots>,
}

impl Model for HashValues {
    ghost use Rattle.exi_tables.specs.Values.{ValueTable};
    ghost use Rattle.exi_tables.specs.Kept.{IsListed};

    ghost Value = { ValueTable };

    ghost view = { λ v. v.values };

    ghost invariant = { λ v. IsListed v.values.live v.index.entries };
}

impl ValueStore for HashValues {
    ghost table = { λ v. v };

    fn new(alloc: Global, most: Option<u128>, capacity: Option<u128>) -> HashValues {
        HashValues {
            alloc,
            values: PlaceValues::new(alloc, most, capacity),
            index: IndexMap::new(alloc),
        }
    }

    fn restart(&mut self, most: Option<u128>, capacity: Option<u128>) {
        self.values.restart(most, capacity);
        // `IndexMap::clear` walks all the room, which may be far more than what goes.
        self.index.truncate(0);
    }

    fn count(&self) -> u32 {
        self.values.count()
    }

    fn at(&self, place: u32) -> Option<&Txt> {
        self.values.at(place)
    }

    fn of(&self, text: &Txt) -> Option<u32> {
        match self.index.get(&hash_of(text)) {
            Some(spots) => least_among(self.values.live(), spots, text),
            None => None,
        }
    }

    fn given(&self, name: NameId) -> u32 {
        self.values.given(name)
    }

    fn own_at(&self, name: NameId, place: u32) -> Option<&Txt> {
        self.values.own_at(name, place)
    }

    fn number(&self, name: NameId) -> Option<usize> {
        self.values.number(name)
    }

    fn numbered_given(&self, name: NameId, number: usize) -> u32 {
        self.values.numbered_given(name, number)
    }

    fn numbered_at(&self, name: NameId, number: usize, place: u32) -> Option<&Txt> {
        self.values.numbered_at(name, number, place)
    }

    fn own_of(&self, name: NameId, text: &Txt) -> Option<u32> {
        match self.index.get(&hash_of(text)) {
            Some(spots) => own_among(self.values.live(), spots, name, text),
            None => None,
        }
    }

    fn standing(&self, name: NameId, text: &Txt) -> Standing {
        match self.index.get(&hash_of(text)) {
            Some(spots) => standing_among(self.values.live(), spots, name, text),
            None => Standing::Missing,
        }
    }

    fn add(&mut self, name: NameId, text: Txt) -> Result<(), AllocError> {
        if !self.values.bounds().adds(&text) {
            return Ok(());
        }
        let place = self.values.next();
        let hash = hash_of(&text);
        let pushed_out = hash_at(self.values.live(), place);
        list_place(&mut self.index, self.alloc, hash, place)?;
        self.values.push(name, text)?;
        unlist_other(&mut self.index, pushed_out, hash, place);
        Ok(())
    }
}

/// The hash of a text.
#[tactic(auto, unfolding(crate::specs::Kept::text_hash))]
fn hash_of(text: &Txt) -> u64
    ensures { result ≡ text_hash text.now }
{
    let mut hasher = FoldHasher::default();
    text.hash(&mut hasher);
    hasher.finish()
}

/// Whether a value with this text stands at a place.
fn stands_at(live: &[Live], place: u32, text: &Txt) -> bool
    ensures { result ≡ has_text text.now (slice_get live.now place) }
{
    match live.get(place as usize) {
        Some(value) => value.text.same(text),
        None => false,
    }
}

/// The place, where a value with this text stands at it.
fn place_at(live: &[Live], place: u32, text: &Txt) -> Option<u32>
    ensures { result ≡ place_of text.now place (slice_get live.now place) }
{
    if stands_at(live, place, text) {
        Some(place)
    } else {
        None
    }
}

/// The place under the name of the value at a place, where it has this name and text.
fn local_at(live: &[Live], place: u32, name: NameId, text: &Txt) -> Option<u32>
    ensures { result ≡ local_of name text.now (slice_get live.now place) }
{
    let value = live.get(place as usize)?;
    if is_value(value, name, text) {
        Some(value.local)
    } else {
        None
    }
}

/// The lesser of two places, where there are two.
fn lesser(place: Option<u32>, other: Option<u32>) -> Option<u32>
    ensures { result ≡ lesser place other }
{
    match place {
        Some(place) => Some(or_less(place, other)),
        None => other,
    }
}

/// The least place among all of a value with this text, which each place that has it is listed for.
fn least_among(live: &[Live], spots: &Spots, text: &Txt) -> Option<u32>
    requires listed { (place : ℕ) (l : Live) → slice_get live.now place ≡ Some l →
        bytes_eq l.text text.now ≡ true → is_spot spots.now place ≡ true }
    ensures { result ≡ position (λ l. bytes_eq l.text text.now) live.now }
{
    let first = spots.least();
    if stands_at(live, first, text) {
        return Some(first);
    }
    let mut least = None;
    for place in spots.more() {
        least = lesser(place_at(live, *place, text), least);
    }
    least
}

/// The least place under a name of a value with this text, which each place that has it is listed for.
fn own_among(live: &[Live], spots: &Spots, name: NameId, text: &Txt) -> Option<u32>
    requires listed { (place : ℕ) (l : Live) → slice_get live.now place ≡ Some l →
        bytes_eq l.text text.now ≡ true → is_spot spots.now place ≡ true }
    ensures { result ≡ least_under name text.now live.now }
{
    let mut least = local_at(live, spots.least(), name, text);
    if spots.more().is_empty() {
        return least;
    }
    for place in spots.more() {
        least = lesser(local_at(live, *place, name, text), least);
    }
    least
}

/// Where a value with this text stands, which each place that has it is listed for.
fn standing_among(live: &[Live], spots: &Spots, name: NameId, text: &Txt) -> Standing
    requires listed { (place : ℕ) (l : Live) → slice_get live.now place ≡ Some l →
        bytes_eq l.text text.now ≡ true → is_spot spots.now place ≡ true }
    ensures { StandsAs result (least_under name text.now live.now)
        (position (λ l. bytes_eq l.text text.now) live.now) }
{
    if let Some(place) = own_among(live, spots, name, text) {
        return Standing::Own(place);
    }
    match least_among(live, spots, text) {
        Some(place) => Standing::Global(place),
        None => Standing::Missing,
    }
}

/// The hash of the text of the value at a place.
fn hash_at(live: &[Live], place: u32) -> Option<u64> {
    let value = live.get(place as usize)?;
    Some(hash_of(&value.text))
}

/// Lists a place no longer under the hash of what was pushed out, but where it stands under that again.
fn unlist_other(index: &mut IndexMap<u64, Spots>, pushed_out: Option<u64>, hash: u64, place: u32)
    ensures kept { (other p : ℕ) → is_listed index.old.entries other p ≡ true → p ≢ place →
        is_listed index.new.entries other p ≡ true }
    ensures stays { is_listed index.old.entries hash place ≡ true →
        is_listed index.new.entries hash place ≡ true }
{
    match pushed_out {
        Some(old) if old != hash => unlist_place(index, old, place),
        _ => {}
    }
}
