ghost use Rattle.std.specs.Prelude.{◌≡◌, [], ◌<◌, ◌-◌, ◌^◌, ◌≤◌, ℕ, length, map, slice_get, Some, IfOk, IfSome};
ghost use Rattle.std.specs.Option.{option_copied, option_and_then};
ghost use Rattle.exi_names.specs.StartTables.{IsStart};
ghost use Rattle.exi_tables.specs.Added.{first_locals};
ghost use Rattle.exi_tables.specs.Partitions.{first_prefixes, known_prefixes, least_place, live_at};

use crate::hash_texts::HashTexts;
use crate::texts::Texts;
use exi_names::{StartNames, Txt, TxtList};
use std::alloc::{AllocError, Global};
use std::marker::Model;
use std::sync::Arc;

/// The first texts of a list, which never change. Each knows its least place.
#[derive(Drop)]
struct FirstTexts {
    texts: HashTexts,
}

impl Model for FirstTexts {
    ghost use Rattle.std.specs.Prelude.{[], List, ℕ};
    ghost use Rattle.exi_tables.specs.Added.{IsPlaced};

    ghost Value = { List (List ℕ) };

    ghost view = { λ f. f.texts.texts };

    ghost invariant = { λ f. IsPlaced [] f.texts.texts f.texts.known };
}

impl FirstTexts {
    /// These texts.
    fn of(alloc: Global, texts: &[Txt]) -> Result<FirstTexts, AllocError>
        requires { length texts.now < 2 ^ 32 - 1 }
        ensures { IfOk result (λ first. first ≡ texts.now) }
    {
        let mut copy = HashTexts::new(alloc);
        for text in texts {
            let place = copy.count();
            copy.push(text.copy()?, place)?;
        }
        Ok(FirstTexts { texts: copy })
    }

    /// How many there are.
    fn count(&self) -> u32
        ensures { result ≡ length self.now }
    {
        self.texts.count()
    }

    /// The text at a place.
    fn at(&self, place: u32) -> Option<&Txt>
        ensures { option_copied result ≡ live_at self.now place }
    {
        self.texts.at(place)
    }

    /// The least place of a text.
    fn place_of(&self, text: &Txt) -> Option<u32>
        ensures { result ≡ least_place self.now text.now }
    {
        self.texts.of(text)
    }

    /// The least place of the text at a place.
    fn least(&self, place: u32) -> Option<u32>
        ensures { result ≡ option_and_then (least_place self.now) (live_at self.now place) }
    {
        self.texts.number(place)
    }
}

/// What first tables share.
#[derive(Drop)]
struct Front {
    uris: FirstTexts,
    locals: Vec<FirstTexts>,
    /// Those of the first three URIs, one for each.
    prefixes: Vec<Txt>,
}

/// The string tables with which a stream begins (EXI 1.0, appendix D): they are made once, and all tables that begin
/// with them share them.
#[derive(Drop)]
pub struct FirstTables {
    front: Arc<Front>,
}

impl Model for FirstTables {
    ghost use Rattle.std.specs.Prelude.{◌≡◌};
    ghost use Rattle.std.specs.Arc.{arc_value};
    ghost use Rattle.exi_names.specs.StartTables.{Names, IsStart};
    ghost use Rattle.exi_tables.specs.Partitions.{known_prefixes};

    ghost Value = { Names };

    ghost view = { λ f. record {
      uris = (arc_value f.front).uris;
      locals = (arc_value f.front).locals.items;
    } };

    ghost invariant = { λ f.
        IsStart (record { uris = (arc_value f.front).uris; locals = (arc_value f.front).locals.items })
        × ((arc_value f.front).prefixes.items ≡ known_prefixes) };
}

impl FirstTables {
    /// The first tables of these names, with the prefixes "", `xml` and `xsi` for the first three URIs.
    ///
    /// # Errors
    ///
    /// `AllocError` where memory is refused.
    pub fn of(alloc: Global, names: &StartNames) -> Result<FirstTables, AllocError>
        ensures names { IfOk result (λ first. first ≡ names.now) }
    {
        let front = Front {
            uris: FirstTexts::of(alloc, names.uris().as_slice())?,
            locals: lists_of(alloc, names.locals().as_slice())?,
            prefixes: known_prefixes(alloc)?,
        };
        Ok(FirstTables {
            front: Arc::new(alloc, front)?,
        })
    }

    /// The same tables, shared. It takes no memory.
    ///
    /// # Errors
    ///
    /// `AllocError` where they are shared 2^63 - 1 times.
    pub fn share(&self) -> Result<FirstTables, AllocError>
        ensures same { IfOk result (λ first. first ≡ self.now) }
    {
        Ok(FirstTables {
            front: Arc::try_clone(&self.front)?,
        })
    }

    /// How many URIs there are.
    pub(crate) fn uris(&self) -> u32
        ensures uris { result ≡ length self.now.uris }
        ensures start { IsStart self.now }
    {
        self.front.uris.count()
    }

    /// The URI at a place.
    pub(crate) fn uri_at(&self, place: u32) -> Option<&Txt>
        ensures { option_copied result ≡ live_at self.now.uris place }
    {
        self.front.uris.at(place)
    }

    /// The least place of a URI.
    pub(crate) fn uri_of(&self, text: &Txt) -> Option<u32>
        ensures { result ≡ least_place self.now.uris text.now }
    {
        self.front.uris.place_of(text)
    }

    /// The least place of the URI at a place.
    pub(crate) fn least_uri(&self, place: u32) -> Option<u32>
        ensures { result ≡ option_and_then (least_place self.now.uris)
            (live_at self.now.uris place) }
    {
        self.front.uris.least(place)
    }

    /// How many local names a URI has.
    pub(crate) fn locals(&self, uri: u32) -> u32
        ensures { result ≡ length (first_locals self.now uri) }
    {
        match self.front.locals.get(uri as usize) {
            Some(list) => list.count(),
            None => 0,
        }
    }

    /// The local name at a place.
    pub(crate) fn local_at(&self, uri: u32, place: u32) -> Option<&Txt>
        ensures { option_copied result ≡ live_at (first_locals self.now uri) place }
    {
        self.front.locals.get(uri as usize)?.at(place)
    }

    /// The least place of a local name.
    pub(crate) fn local_of(&self, uri: u32, text: &Txt) -> Option<u32>
        ensures { result ≡ least_place (first_locals self.now uri) text.now }
    {
        self.front.locals.get(uri as usize)?.place_of(text)
    }

    /// The least place of the local name at a place.
    pub(crate) fn least_local(&self, uri: u32, place: u32) -> Option<u32>
        ensures { result ≡ option_and_then (least_place (first_locals self.now uri))
            (live_at (first_locals self.now uri) place) }
    {
        self.front.locals.get(uri as usize)?.least(place)
    }

    /// How many prefixes a URI has.
    pub(crate) fn prefixes(&self, uri: u32) -> u32
        ensures { result ≡ length (first_prefixes uri) }
    {
        match self.prefix(uri) {
            Some(_) => 1,
            None => 0,
        }
    }

    /// The prefix of a URI.
    fn prefix(&self, uri: u32) -> Option<&Txt>
        ensures { option_copied result ≡ slice_get known_prefixes uri }
    {
        self.front.prefixes.get(uri as usize)
    }

    /// The prefix at a place.
    pub(crate) fn prefix_at(&self, uri: u32, place: u32) -> Option<&Txt>
        ensures { option_copied result ≡ live_at (first_prefixes uri) place }
    {
        match place {
            0 => self.prefix(uri),
            _ => None,
        }
    }

    /// The least place of a prefix.
    pub(crate) fn prefix_of(&self, uri: u32, text: &Txt) -> Option<u32>
        ensures { result ≡ least_place (first_prefixes uri) text.now }
    {
        match self.prefix(uri) {
            Some(prefix) if prefix.same(text) => Some(0),
            _ => None,
        }
    }
}

/// A list of first texts for each of these lists.
fn lists_of(alloc: Global, lists: &[TxtList]) -> Result<Vec<FirstTexts>, AllocError>
    requires { (place : ℕ) → IfSome (slice_get lists.now place) (λ list. length list ≤ 2 ^ 30) }
    ensures { IfOk result (λ all. all.items ≡ lists.now) }
{
    let mut all = Vec::new(alloc);
    for list in lists {
        all.push(FirstTexts::of(alloc, list.as_slice())?)?;
    }
    Ok(all)
}

/// The prefixes of the first three URIs.
fn known_prefixes(alloc: Global) -> Result<Vec<Txt>, AllocError>
    ensures { IfOk result (λ texts. texts.items ≡ known_prefixes) }
{
    let mut texts = Vec::new(alloc);
    texts.push(Txt::new(alloc))?;
    texts.push(Txt::of(alloc, "xml")?)?;
    texts.push(Txt::of(alloc, "xsi")?)?;
    Ok(texts)
}
