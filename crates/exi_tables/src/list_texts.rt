ghost use Rattle.std.specs.Prelude.{◌≡◌, ◌<◌, ◌^◌};
ghost use Rattle.std.specs.Map.{lookup};
ghost use Rattle.std.specs.Option.{ForSome};
ghost use Rattle.std.specs.Str.{bytes_eq};
ghost use Rattle.exi_tables.specs.Kept.{pairs_of};

use crate::texts::Texts;
use exi_names::Txt;
use std::alloc::{AllocError, Global};
use std::marker::Model;

/// A text and the number beside it.
#[derive(Debug, Drop)]
struct Numbered {
    text: Txt,
    number: u32,
}

/// Texts as a plain list, each beside its number.
#[derive(Debug, Drop)]
pub struct ListTexts {
    items: Vec<Numbered>,
}

impl Model for ListTexts {
    ghost use Rattle.std.specs.Prelude.{◌<◌, ◌^◌, length, map};
    ghost use Rattle.exi_tables.specs.Added.{TextTable};
    ghost use Rattle.exi_tables.specs.Kept.{pairs_of};

    ghost Value = { TextTable };

    ghost view = { λ t. record {
      texts = map (λ i. i.text) t.items.items;
      known = pairs_of t.items.items;
    } };

    ghost invariant = { λ t. length t.items.items < 2 ^ 32 };
}

impl Texts for ListTexts {
    ghost texts = { λ t. t.texts };

    ghost known = { λ t. t.known };

    fn new(alloc: Global) -> ListTexts {
        ListTexts {
            items: Vec::new(alloc),
        }
    }

    fn count(&self) -> u32 {
        self.items.len() as u32
    }

    fn at(&self, place: u32) -> Option<&Txt> {
        match self.items.get(place as usize) {
            Some(item) => Some(&item.text),
            None => None,
        }
    }

    fn of(&self, text: &Txt) -> Option<u32> {
        number_of(&self.items, text)
    }

    fn number(&self, place: u32) -> Option<u32> {
        self.of(self.at(place)?)
    }

    fn push(&mut self, text: Txt, number: u32) -> Result<(), AllocError> {
        let number = self.of(&text).unwrap_or(number);
        self.items.push(Numbered { text, number })?;
        Ok(())
    }

    fn clear(&mut self) {
        self.items.clear();
    }
}

/// The number beside a text.
fn number_of(items: &[Numbered], text: &Txt) -> Option<u32>
    ensures { result ≡ lookup (bytes_eq text.now) (pairs_of items.now) }
{
    for item in items {
        if text.same(&item.text) {
            return Some(item.number);
        }
    }
    None
}

/// A place that is a number of 32 bits.
pub fn narrowed(place: Option<usize>) -> Option<u32>
    requires { ForSome place (λ p. p < 2 ^ 32) }
    ensures { result ≡ place }
{
    match place {
        Some(place) => Some(place as u32),
        None => None,
    }
}
