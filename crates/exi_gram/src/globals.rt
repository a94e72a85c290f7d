ghost use Rattle.std.specs.Prelude.{◌≡◌, ◌++◌, ◌∷◌, [], ℕ, OnOk, IfOk, Some, None, map};
ghost use Rattle.std.specs.Option.{option_copied};
ghost use Rattle.exi_names.specs.Shown.{named};
ghost use Rattle.exi_gram.specs.Globals.{FindsDeclared, FindsNames, attribute_datatype, attribute_names, element_grammar, element_names, first_at, hashed_from, is_named, name_hash, places_under, represented_by, same_texts, type_grammar, type_names};
ghost use Rattle.exi_gram.specs.Outlines.{attribute_of};

use crate::entry::{ElementEntry, TypeEntry};
use crate::items::Items;
use crate::schema::Schema;
use exi_names::{Datatype, NameRef, QName, Txt};
use indexmap::IndexMap;
use std::alloc::{AllocError, Global};
use std::hash::{FoldHasher, Hash, Hasher};
use std::marker::Model;

/// The hash of a name, whatever its prefix.
#[tactic(auto, unfolding(crate::specs::Globals::name_hash))]
fn hash_of(uri: &Txt, local: &Txt) -> u64
    ensures { result ≡ name_hash uri.now local.now }
{
    let mut hasher = FoldHasher::default();
    uri.hash(&mut hasher);
    local.hash(&mut hasher);
    hasher.finish()
}

/// The places of names in a list, by the hashes of the names.
#[derive(Debug, Drop)]
pub struct NameIndex {
    places: IndexMap<u64, Items<usize>>,
}

impl Model for NameIndex {
    ghost use Rattle.exi_gram.specs.Globals.{Hashed};

    ghost Value = { Hashed };

    ghost view = { λ i. i.places.entries };
}

impl NameIndex {
    /// No names.
    fn new(alloc: Global) -> NameIndex
        ensures { FindsNames result [] }
    {
        NameIndex {
            places: IndexMap::new(alloc),
        }
    }

    /// The places of the names that have the hash of this one, in rising order.
    fn find(&self, name: NameRef<'_>) -> &[usize]
        ensures { result.now ≡ places_under self.now (name_hash (named name.entry).uri (named name.entry).local) }
    {
        match self.places.get(&hash_of(name.uri, name.local)) {
            None => &[],
            Some(places) => places.as_slice(),
        }
    }

    /// Adds a name at a place behind all others.
    fn add(&mut self, alloc: Global, name: &QName, place: usize) -> Result<(), AllocError>
        ensures { OnOk result ((hash : ℕ) →
            places_under self.new hash ≡ places_under self.old hash ++ hashed_from hash place (Some name.now ∷ [])) }
    {
        let hash = hash_of(&name.uri, &name.local);
        if let Some(places) = self.places.get_mut(&hash) {
            places.push(place)?;
            return Ok(());
        }
        let mut places = Items::new(alloc);
        places.push(place)?;
        self.places.insert(hash, places)?;
        Ok(())
    }

    /// The names of these elements.
    fn of_elements(alloc: Global, elements: &[ElementEntry]) -> Result<NameIndex, AllocError>
        ensures { IfOk result (λ i. FindsNames i (element_names elements.now)) }
    {
        let mut index = NameIndex::new(alloc);
        for (place, element) in elements.iter().enumerate() {
            index.add(alloc, &element.name, place)?;
        }
        Ok(index)
    }

    /// The names of these attributes.
    fn of_attributes(
        alloc: Global,
        attributes: &[(QName, Datatype)],
    ) -> Result<NameIndex, AllocError>
        ensures { IfOk result (λ i. FindsNames i (attribute_names attributes.now)) }
    {
        let mut index = NameIndex::new(alloc);
        for (place, attribute) in attributes.iter().enumerate() {
            index.add(alloc, &attribute.0, place)?;
        }
        Ok(index)
    }

    /// The names of these types, of which not all have one.
    fn of_types(alloc: Global, types: &[TypeEntry]) -> Result<NameIndex, AllocError>
        ensures { IfOk result (λ i. FindsNames i (type_names types.now)) }
    {
        let mut index = NameIndex::new(alloc);
        for (place, entry) in types.iter().enumerate() {
            if let Some(name) = &entry.name {
                index.add(alloc, name, place)?;
            }
        }
        Ok(index)
    }
}

/// Whether a name of a schema has the texts of another, whatever its prefix.
fn has_texts(own: &QName, name: NameRef<'_>) -> bool
    ensures { result ≡ same_texts own.now (named name.entry) }
{
    own.uri.same(name.uri) && own.local.same(name.local)
}

/// Whether a type has this name.
fn is_named(own: &Option<QName>, name: NameRef<'_>) -> bool
    ensures { result ≡ is_named own.now (named name.entry) }
{
    match own {
        Some(own) => has_texts(own, name),
        None => false,
    }
}

/// The place of the grammar of the first of these elements that has the name, where only some places can be its own.
fn element_among(elements: &[ElementEntry], places: &[usize], name: NameRef<'_>) -> Option<u32>
    ensures { result ≡ first_at (λ e. same_texts e.name (named name.entry)) (λ e. Some e.full) None elements.now places.now }
{
    for place in places {
        if let Some(element) = elements.get(*place) {
            if has_texts(&element.name, name) {
                return Some(element.full);
            }
        }
    }
    None
}

/// The datatype of the first of these attributes that has the name, where only some places can be its own.
fn attribute_among<'a>(
    attributes: &'a [(QName, Datatype)],
    places: &[usize],
    name: NameRef<'_>,
) -> Option<&'a Datatype>
    ensures { represented_by (option_copied result)
        ≡ first_at (λ a. same_texts a.0 (named name.entry)) (λ a. represented_by (Some a.1)) (represented_by None) attributes.now places.now }
{
    for place in places {
        if let Some(attribute) = attributes.get(*place) {
            if has_texts(&attribute.0, name) {
                return Some(&attribute.1);
            }
        }
    }
    None
}

/// The place of the grammar of the first of these types that has the name, where only some places can be its own.
fn type_among(types: &[TypeEntry], places: &[usize], name: NameRef<'_>) -> Option<u32>
    ensures { result ≡ first_at (λ t. is_named t.name (named name.entry)) (λ t. Some t.full) None types.now places.now }
{
    for place in places {
        if let Some(entry) = types.get(*place) {
            if is_named(&entry.name, name) {
                return Some(entry.full);
            }
        }
    }
    None
}

/// What a schema declares, by name: the places of its global elements, its global attributes and its types.
/// So no event needs a walk over them.
#[derive(Debug, Drop)]
pub struct Globals {
    elements: NameIndex,
    attributes: NameIndex,
    types: NameIndex,
}

impl Model for Globals {
    ghost use Rattle.exi_gram.specs.Globals.{Places};

    ghost Value = { Places };

    ghost view = { λ g. record { elements = g.elements; attributes = g.attributes; types = g.types } };
}

impl Globals {
    /// What this schema declares.
    ///
    /// # Errors
    ///
    /// `AllocError` where memory is refused.
    pub fn of(alloc: Global, schema: &Schema) -> Result<Globals, AllocError>
        ensures { IfOk result (λ g. FindsDeclared g schema.now) }
    {
        Ok(Globals {
            elements: NameIndex::of_elements(alloc, schema.globals())?,
            attributes: NameIndex::of_attributes(alloc, schema.attributes())?,
            types: NameIndex::of_types(alloc, schema.types())?,
        })
    }

    /// The place of the grammar of the global element of this name, where there is one.
    pub(crate) fn element_grammar(&self, schema: &Schema, name: NameRef<'_>) -> Option<u32>
        requires finds { FindsDeclared self.now schema.now }
        ensures { result ≡ element_grammar schema.now.globals (named name.entry) }
    {
        let elements = schema.globals();
        // Without a schema there is none, and the name need not be looked at.
        if elements.is_empty() {
            return None;
        }
        element_among(elements, self.elements.find(name), name)
    }

    /// The datatype of the global attribute of this name, where there is one.
    pub(crate) fn attribute_datatype<'a>(
        &self,
        schema: &'a Schema,
        name: NameRef<'_>,
    ) -> Option<&'a Datatype>
        requires finds { FindsDeclared self.now schema.now }
        ensures { represented_by (option_copied result) ≡ attribute_datatype schema.now.attributes (named name.entry) }
    {
        let attributes = schema.attributes();
        if attributes.is_empty() {
            return None;
        }
        attribute_among(attributes, self.attributes.find(name), name)
    }

    /// The place of the grammar of the type of this name, where there is one.
    pub(crate) fn type_grammar(&self, schema: &Schema, name: NameRef<'_>) -> Option<u32>
        requires finds { FindsDeclared self.now schema.now }
        ensures { result ≡ type_grammar schema.now.types (named name.entry) }
    {
        type_among(schema.types(), self.types.find(name), name)
    }
}
