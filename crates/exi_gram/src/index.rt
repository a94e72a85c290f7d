ghost use Rattle.std.specs.Prelude.{◌≡◌, ◌++◌, ◌∷◌, ◌&&◌, ◌≤◌, [], OnOk, IfOk, if◌then◌else◌, length, map};
ghost use Rattle.exi_names.specs.NameMaps.{same_name};
ghost use Rattle.exi_names.specs.declared.names.NameId.{NameId};
ghost use Rattle.exi_gram.specs.Candidates.{candidates, found, index_key, same_class, sought_from};
ghost use Rattle.exi_gram.specs.Tables.{coded_of, most_productions};
ghost use Rattle.exi_gram.specs.declared.class.Class.{Class};

use crate::class::Class;
use crate::code::Coded;
use crate::items::Items;
use exi_names::NameId;
use indexmap::IndexMap;
use std::alloc::{AllocError, Global};
use std::marker::Model;

/// A class and a name, for which places are kept.
#[derive(Clone, Copy, Debug, PartialEq, Eq, Hash)]
pub struct IndexKey {
    /// The number of the class.
    pub class: usize,
    /// The place of the URI.
    pub uri: u32,
    /// The place of the local name.
    pub local: u32,
}

/// The key of a class and a name.
fn key_of(class: Class, name: NameId) -> IndexKey
    ensures { result ≡ index_key class name }
{
    IndexKey {
        class: class.number(),
        uri: name.uri,
        local: name.local,
    }
}

/// The productions of a state by what they read: for each class and name their places in the order of the
/// codes, those with fewer parts first. A look-up takes no memory and no walk over the codes, and the
/// memory grows with the productions alone, whatever their names' places are.
#[derive(Debug, Drop)]
pub struct Index {
    places: IndexMap<IndexKey, Items<u32>>,
}

impl Model for Index {
    ghost use Rattle.exi_gram.specs.Candidates.{Listed};

    ghost Value = { Listed };

    ghost view = { λ i. i.places.entries };
}

impl Index {
    /// No productions.
    fn new(alloc: Global) -> Index
        ensures { (class : Class) (name : NameId) → found result class name ≡ [] }
    {
        Index {
            places: IndexMap::new(alloc),
        }
    }

    /// The places of the productions of a class and a name, by its least places. A URI is sought with the
    /// local place 0, and what has no name with two zeros.
    pub fn find(&self, class: Class, name: NameId) -> &[u32]
        ensures { result.now ≡ found self.now class name }
    {
        match self.places.get(&key_of(class, name)) {
            None => &[],
            Some(places) => places.as_slice(),
        }
    }

    /// Adds the place of a production behind those of its class and name.
    fn add(
        &mut self,
        alloc: Global,
        class: Class,
        name: NameId,
        place: u32,
    ) -> Result<(), AllocError>
        ensures { OnOk result ((c : Class) (n : NameId) →
            found self.new c n
            ≡ (if same_class class c && same_name name n then found self.old c n ++ place ∷ [] else found self.old c n)) }
    {
        let mut places = Items::new(alloc);
        for place in self.find(class, name) {
            places.push(*place)?;
        }
        places.push(place)?;
        self.places.insert(key_of(class, name), places)?;
        Ok(())
    }

    /// Adds the productions whose codes have so many parts.
    fn add_all(&mut self, alloc: Global, coded: &[Coded], parts: u32) -> Result<(), AllocError>
        requires few { length coded.now ≤ most_productions }
        ensures { OnOk result ((c : Class) (n : NameId) →
            found self.new c n ≡ found self.old c n ++ sought_from parts c n 0 (map coded_of coded.now)) }
    {
        for (place, coded) in coded.iter().enumerate() {
            if coded.code.parts() == parts {
                let class = coded.production.on.class();
                self.add(alloc, class, coded.named.sought(), place as u32)?;
            }
        }
        Ok(())
    }

    /// The index of these productions.
    ///
    /// # Errors
    ///
    /// `AllocError` where memory is refused.
    pub fn of(alloc: Global, coded: &[Coded]) -> Result<Index, AllocError>
        requires few { length coded.now ≤ most_productions }
        ensures { IfOk result (λ i. (class : Class) (name : NameId) →
            found i class name ≡ candidates class name (map coded_of coded.now)) }
    {
        let mut index = Index::new(alloc);
        index.add_all(alloc, coded, 1)?;
        index.add_all(alloc, coded, 2)?;
        index.add_all(alloc, coded, 3)?;
        Ok(index)
    }
}
