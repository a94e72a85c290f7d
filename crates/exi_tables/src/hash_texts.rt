ghost use Rattle.std.specs.Prelude.{◌≡◌};
ghost use Rattle.std.specs.Map.{lookup};
ghost use Rattle.std.specs.Str.{bytes_eq};

use crate::texts::Texts;
use exi_names::Txt;
use indexmap::IndexMap;
use std::alloc::{AllocError, Global};
use std::marker::Model;

/// How many texts are compared one by one. Among more a text is looked up by hash.
const COMPARED: usize = 8;

/// Texts by hash, few of them one by one: each text once, beside its number, and for each place the index of its text.
#[derive(Drop)]
pub struct HashTexts {
    places: Vec<u32>,
    numbers: IndexMap<Txt, u32>,
}

impl Model for HashTexts {
    ghost use Rattle.indexmap.specs.IndexMap.{keys};
    ghost use Rattle.exi_tables.specs.Added.{TextTable};
    ghost use Rattle.exi_tables.specs.Kept.{IsHashed, texts_at};

    ghost Value = { TextTable };

    ghost view = { λ t. record {
      texts = texts_at (keys t.numbers) t.places.items;
      known = t.numbers.entries;
    } };

    ghost invariant = { λ t. IsHashed t.numbers.entries t.places.items };
}

impl Texts for HashTexts {
    ghost texts = { λ t. t.texts };

    ghost known = { λ t. t.known };

    fn new(alloc: Global) -> HashTexts {
        HashTexts {
            places: Vec::new(alloc),
            numbers: IndexMap::new(alloc),
        }
    }

    fn count(&self) -> u32 {
        self.places.len() as u32
    }

    fn at(&self, place: u32) -> Option<&Txt> {
        let index = *self.places.get(place as usize)?;
        let (text, _) = self.numbers.get_index(index as usize)?;
        Some(text)
    }

    fn of(&self, text: &Txt) -> Option<u32> {
        if self.numbers.len() <= COMPARED {
            return compared(&self.numbers, text);
        }
        self.numbers.get(text).copied()
    }

    fn number(&self, place: u32) -> Option<u32> {
        let index = *self.places.get(place as usize)?;
        let (_, number) = self.numbers.get_index(index as usize)?;
        Some(*number)
    }

    fn push(&mut self, text: Txt, number: u32) -> Result<(), AllocError> {
        self.places.reserve(1)?;
        if let Some(index) = self.numbers.get_index_of(&text) {
            self.places.push_reserved(index as u32);
            return Ok(());
        }
        let (index, _) = self.numbers.insert_full(text, number)?;
        self.places.push_reserved(index as u32);
        Ok(())
    }

    fn clear(&mut self) {
        self.places.clear();
        // `IndexMap::clear` walks all the room, which may be far more than what goes.
        self.numbers.truncate(0);
    }
}

/// Whether a text has the same characters. Most that have not differ in number.
#[inline(always)]
fn is_same(text: &Txt, other: &Txt) -> bool
    ensures { result ≡ bytes_eq text.now other.now }
{
    text.count() == other.count() && text.same(other)
}

/// The number beside a text, which is compared with each in turn.
fn compared(numbers: &IndexMap<Txt, u32>, text: &Txt) -> Option<u32>
    ensures { result ≡ lookup (bytes_eq text.now) numbers.now.entries }
{
    for entry in numbers.iter() {
        if is_same(text, entry.0) {
            return Some(*entry.1);
        }
    }
    None
}
