ghost use Rattle.std.specs.Prelude.{◌≡◌, ◌<◌, ◌+◌, ◌-◌, ◌^◌, ℕ, length, nat_eq, OnOk, OnErr};
ghost use Rattle.std.specs.Option.{option_copied};
ghost use Rattle.exi_tables.specs.Added.{
  IsPushed,
  IsPushedAt,
  added_at,
  added_least,
  count_of,
  idle,
  list_at,
  no_start,
  none_from,
  number_of,
};

use crate::texts::Texts;
use exi_names::Txt;
use std::alloc::{AllocError, Global};
use std::marker::Model;

/// Texts that were added to a list of first ones. Beside each its least place among all is kept.
#[derive(Drop)]
pub struct Added<T: Texts + Drop> {
    /// The place of the first of them; `u32::MAX`, which no text has, where none was added to a list.
    start: u32,
    texts: T,
}

impl<T: Texts + Drop> Model for Added<T> {
    ghost use Rattle.std.specs.Prelude.{◌<◌, ◌+◌, ◌^◌, length};
    ghost use Rattle.exi_tables.specs.Added.{Added as Seen};

    ghost Value = { Seen };

    ghost view = { λ a. record {
      start = a.start;
      texts = T.texts a.texts;
      known = T.known a.texts;
    } };

    ghost invariant = { λ a. a.start + length (T.texts a.texts) < 2 ^ 32 };
}

impl<T: Texts + Drop> Added<T> {
    /// None, to be added from a place on.
    pub fn new(alloc: Global, start: u32) -> Added<T>
        ensures { result ≡ none_from start }
    {
        Added {
            start,
            texts: T::new(alloc),
        }
    }

    /// Whether the list has no start yet.
    fn is_idle(&self) -> bool
        ensures { result ≡ nat_eq self.now.start no_start }
    {
        self.start == u32::MAX
    }

    /// How many texts there are, the first ones among them.
    pub fn count(&self) -> u32
        ensures { result ≡ self.now.start + length self.now.texts }
    {
        self.start + self.texts.count()
    }

    /// The added text at a place.
    #[inline]
    pub fn at(&self, place: u32) -> Option<&Txt>
        ensures { option_copied result ≡ added_at self.now place }
    {
        if place < self.start {
            return None;
        }
        self.texts.at(place - self.start)
    }

    /// The least place of a text, where it was added.
    pub fn of(&self, text: &Txt) -> Option<u32>
        ensures { result ≡ number_of self.now.known text.now }
    {
        self.texts.of(text)
    }

    /// The least place of the added text at a place.
    #[inline]
    pub fn least(&self, place: u32) -> Option<u32>
        ensures { result ≡ added_least self.now place }
    {
        if place < self.start {
            return None;
        }
        self.texts.number(place - self.start)
    }

    /// Adds a text to a list of so many first ones. The number is its least place.
    ///
    /// # Errors
    ///
    /// `AllocError` where memory is refused; nothing is then added.
    pub fn push(&mut self, start: u32, text: Txt, number: u32) -> Result<(), AllocError>
        requires room { start + length self.old.texts < 2 ^ 32 - 1 }
        ensures ok { OnOk result (IsPushed start text number self.old self.new) }
        ensures err { OnErr result (self.new ≡ self.old) }
    {
        self.texts.push(text, number)?;
        self.start = start;
        Ok(())
    }

    /// Removes all of them, and keeps their room. The next are added from a place on.
    pub fn clear(&mut self, start: u32)
        ensures { self.new ≡ none_from start }
    {
        self.texts.clear();
        self.start = start;
    }
}

/// Texts that were added to the lists of URIs. There is room up to the greatest URI to which one was.
#[derive(Drop)]
pub struct AddedLists<T: Texts + Drop> {
    lists: Vec<Added<T>>,
    /// The URIs to whose lists texts were added.
    used: Vec<u32>,
}

impl<T: Texts + Drop> Model for AddedLists<T> {
    ghost use Rattle.std.specs.Prelude.{List};
    ghost use Rattle.exi_tables.specs.Added.{Added as Seen};
    ghost use Rattle.exi_tables.specs.Kept.{IsUsed};

    ghost Value = { List Seen };

    ghost view = { λ a. a.lists.items };

    ghost invariant = { λ a. IsUsed a.used.items a.lists.items };
}

impl<T: Texts + Drop> AddedLists<T> {
    /// None.
    pub fn new(alloc: Global) -> AddedLists<T>
        ensures { (uri : ℕ) → list_at result uri ≡ idle }
    {
        AddedLists {
            lists: Vec::new(alloc),
            used: Vec::new(alloc),
        }
    }

    /// How many texts the list of a URI has, the first ones among them, where one was added.
    #[inline]
    pub fn count(&self, uri: u32) -> Option<u32>
        ensures { result ≡ count_of (list_at self.now uri) }
    {
        let list = self.lists.get(uri as usize)?;
        if list.is_idle() {
            return None;
        }
        Some(list.count())
    }

    /// The added text at a place of the list of a URI.
    #[inline]
    pub fn at(&self, uri: u32, place: u32) -> Option<&Txt>
        ensures { option_copied result ≡ added_at (list_at self.now uri) place }
    {
        self.lists.get(uri as usize)?.at(place)
    }

    /// The least place of a text in the list of a URI, where it was added.
    pub fn of(&self, uri: u32, text: &Txt) -> Option<u32>
        ensures { result ≡ number_of (list_at self.now uri).known text.now }
    {
        self.lists.get(uri as usize)?.of(text)
    }

    /// The least place of the added text at a place of the list of a URI.
    #[inline]
    pub fn least(&self, uri: u32, place: u32) -> Option<u32>
        ensures { result ≡ added_least (list_at self.now uri) place }
    {
        self.lists.get(uri as usize)?.least(place)
    }

    /// Makes room for the list of a URI.
    fn widen(&mut self, alloc: Global, uri: usize) -> Result<(), AllocError>
        ensures wide { OnOk result (uri < length self.new) }
        ensures same { (other : ℕ) → list_at self.new other ≡ list_at self.old other }
    {
        while self.lists.len() <= uri {
            self.lists.push(Added::new(alloc, u32::MAX))?;
        }
        Ok(())
    }

    /// Adds a text to the list of a URI, which has so many first ones. The number is its least place.
    ///
    /// # Errors
    ///
    /// `AllocError` where memory is refused; nothing is then added.
    pub fn push(
        &mut self,
        alloc: Global,
        uri: u32,
        start: u32,
        text: Txt,
        number: u32,
    ) -> Result<(), AllocError>
        requires room { start + length (list_at self.old uri).texts < 2 ^ 32 - 1 }
        ensures ok { OnOk result (IsPushedAt uri start text number self.old self.new) }
        ensures err { OnErr result ((other : ℕ) → list_at self.new other ≡ list_at self.old other) }
    {
        self.widen(alloc, uri as usize)?;
        self.used.reserve(1)?;
        let list = &mut self.lists[uri as usize];
        let idle = list.is_idle();
        list.push(start, text, number)?;
        if idle {
            self.used.push_reserved(uri);
        }
        Ok(())
    }

    /// Removes all of them, and keeps their room.
    pub fn clear(&mut self)
        ensures { (uri : ℕ) → list_at self.new uri ≡ idle }
    {
        while let Some(uri) = self.used.pop() {
            if let Some(list) = self.lists.get_mut(uri as usize) {
                list.clear(u32::MAX);
            }
        }
    }
}
