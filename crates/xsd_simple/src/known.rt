//! The simple types of a document, made in one pass over the paths.

ghost use Rattle.std.specs.Prelude.{◌≡◌, ◌<◌, ◌^◌, [], ◌∷◌, ◌++◌, true, IfOk, OnOk, get_or, length, set};
ghost use Rattle.xsd_nodes.specs.Nodes.{is_at};
ghost use Rattle.xsd_nodes.specs.declared.part.Part.TheVariants as part;
ghost use Rattle.xsd_paths.specs.Paths.{is_whole};
ghost use Rattle.xsd_components.specs.References.{derivation, item};
ghost use Rattle.xsd_restrictions.specs.Entries.{Grew, IsEntry, simple_at};
ghost use Rattle.xsd_restrictions.specs.Restrictions.{any_simple_but, form_of, listed, restricted};
ghost use Rattle.xsd_simple.specs.Kept.{AreBuilt, AreEntries, AreKnown, AreSimples, place_if, place_of, simples, told, with_derived, with_place};
ghost use Rattle.xsd_simple.specs.Simple.{derived_simple, if_type};
ghost use Rattle.xsd_values.specs.Restricted.{restricted_type};

use std::alloc::{AllocError, Global};
use xsd_components::{Schema, TypeAt};
use xsd_nodes::{Part, is_at};
use xsd_restrictions::{Entry, Forms, built_in, list_of, restrict, union, unknown};
use xsd_values::Values;

/// The place of a type of which nothing is known, behind the built-in types.
const UNKNOWN: usize = 46;

/// The most forms that have places, with room for those of one type more.
const MOST_FORMS: usize = 0xffff_fff0;

/// Simple types, and their places by the elements that say how they are derived.
#[derive(Debug, Drop)]
pub(crate) struct Known {
    entries: Vec<Entry>,
    places: Vec<usize>,
}

/// The built-in types, and behind them one of which nothing is known.
fn built_ins(alloc: Global, forms: &mut Forms) -> Result<Vec<Entry>, AllocError>
    requires none { forms.old ≡ [] }
    ensures kept { IfOk result (λ v. AreEntries forms.new v.items) }
    ensures built { IfOk result (λ v. AreBuilt 47 (simples forms.new v.items)) }
    ensures count { IfOk result (λ v. length v.items ≡ 47) }
{
    let mut entries = Vec::new(alloc);
    for place in 0..47 {
        entries.push(built_in(forms, place)?)?;
    }
    Ok(entries)
}

impl Known {
    /// The place of a type.
    fn place_of(&self, schema: &Schema<'_>, of: TypeAt) -> usize
        ensures { result ≡ place_of schema.now self.now.places.items of }
    {
        match of {
            TypeAt::Built(place) => (place as usize).min(UNKNOWN),
            TypeAt::Node(place) => match schema.derivation(place) {
                Some(derivation) => self.derived_place(derivation),
                None => UNKNOWN,
            },
        }
    }

    /// The place of the type that an element derives.
    fn derived_place(&self, derivation: u32) -> usize
        ensures { result ≡ get_or self.now.places.items derivation 46 }
    {
        match self.places.get(derivation as usize) {
            Some(place) => *place,
            None => UNKNOWN,
        }
    }

    /// The place of a type that may be there.
    fn place_if(&self, schema: &Schema<'_>, of: Option<TypeAt>) -> usize
        ensures { result ≡ place_if schema.now self.now.places.items of }
    {
        match of {
            Some(of) => self.place_of(schema, of),
            None => UNKNOWN,
        }
    }

    /// The type that stands for one that may be there.
    fn entry_if(&self, schema: &Schema<'_>, of: Option<TypeAt>) -> &Entry
        requires inside { place_if schema.now self.now.places.items of < length self.now.entries.items }
        ensures { get_or self.now.entries.items (place_if schema.now self.now.places.items of) result.now ≡ result.now }
    {
        &self.entries[self.place_if(schema, of)]
    }

    /// The type that stands for another.
    pub(crate) fn entry(&self, schema: &Schema<'_>, of: TypeAt) -> &Entry
        requires inside { place_of schema.now self.now.places.items of < length self.now.entries.items }
        ensures { get_or self.now.entries.items (place_of schema.now self.now.places.items of) result.now ≡ result.now }
    {
        &self.entries[self.place_of(schema, of)]
    }

    /// The list that an element derives from its items.
    fn list(
        &self,
        alloc: Global,
        schema: &Schema<'_>,
        forms: &mut Forms,
        derivation: u32,
    ) -> Result<Entry, AllocError>
        requires few { length forms.old < 2 ^ 32 }
        requires known { AreKnown forms.old self.now.entries.items self.now.places.items }
        ensures simple { IfOk result (λ e. simple_at forms.new e ≡ any_simple_but (listed (form_of (if_type (told schema.now (simples forms.old self.now.entries.items) self.now.places.items) (item schema.now derivation))))) }
        ensures kept { IfOk result (λ e. IsEntry forms.new e) }
        ensures more { Grew forms.old forms.new }
    {
        let item = schema.item(alloc, derivation)?;
        list_of(forms, self.entry_if(schema, item).form)
    }

    /// The type that an element derives from another by a restriction.
    fn restriction(
        &self,
        alloc: Global,
        values: &Values<'_>,
        forms: &mut Forms,
        derivation: u32,
    ) -> Result<Entry, AllocError>
        requires few { length forms.old < 2 ^ 32 }
        requires known { AreKnown forms.old self.now.entries.items self.now.places.items }
        requires restriction { is_at values.now part.Restriction derivation ≡ true }
        requires whole { is_whole values.now derivation ≡ true }
        ensures simple { IfOk result (λ e. simple_at forms.new e ≡ restricted values.now derivation (if_type (told values.now (simples forms.old self.now.entries.items) self.now.places.items) (restricted_type values.now derivation))) }
        ensures kept { IfOk result (λ e. IsEntry forms.new e) }
        ensures more { Grew forms.old forms.new }
    {
        let base = values.restricted_type(alloc, derivation)?;
        let schema = values.schema();
        let base = self.entry_if(schema, base);
        restrict(alloc, schema.document(), forms, derivation, base)
    }

    /// The type that an element derives.
    fn derived(
        &self,
        alloc: Global,
        values: &Values<'_>,
        forms: &mut Forms,
        derivation: u32,
    ) -> Result<Entry, AllocError>
        requires few { length forms.old < 2 ^ 32 }
        requires known { AreKnown forms.old self.now.entries.items self.now.places.items }
        requires whole { is_at values.now part.Restriction derivation ≡ true → is_whole values.now derivation ≡ true }
        ensures simple { IfOk result (λ e. simple_at forms.new e ≡ derived_simple values.now (told values.now (simples forms.old self.now.entries.items) self.now.places.items) derivation) }
        ensures kept { IfOk result (λ e. IsEntry forms.new e) }
        ensures more { Grew forms.old forms.new }
    {
        let nodes = values.schema().document().nodes();
        if is_at(nodes, Part::List, derivation) {
            self.list(alloc, values.schema(), forms, derivation)
        } else if is_at(nodes, Part::Union, derivation) {
            union(forms)
        } else if is_at(nodes, Part::Restriction, derivation) {
            self.restriction(alloc, values, forms, derivation)
        } else {
            unknown(forms)
        }
    }

    /// Keeps the type that an element derives.
    fn learn(
        &mut self,
        alloc: Global,
        values: &Values<'_>,
        forms: &mut Forms,
        derivation: u32,
    ) -> Result<(), AllocError>
        requires known { AreKnown forms.old self.old.entries.items self.old.places.items }
        requires there { derivation < length self.old.places.items }
        requires whole { is_at values.now part.Restriction derivation ≡ true → is_whole values.now derivation ≡ true }
        ensures kept { OnOk result (AreEntries forms.new self.new.entries.items) }
        ensures simples { OnOk result (simples forms.new self.new.entries.items ≡ simples forms.old self.old.entries.items ++ derived_simple values.now (told values.now (simples forms.old self.old.entries.items) self.old.places.items) derivation ∷ []) }
        ensures places { OnOk result (self.new.places.items ≡ set self.old.places.items derivation (length self.old.entries.items)) }
    {
        if forms.len() > MOST_FORMS {
            return Err(AllocError);
        }
        let entry = self.derived(alloc, values, forms, derivation)?;
        let place = self.entries.len();
        self.entries.push(entry)?;
        self.places[derivation as usize] = place;
        Ok(())
    }

    /// Looks at the element at a place: where it is a type's, keeps the type.
    fn look_at(
        &mut self,
        alloc: Global,
        values: &Values<'_>,
        forms: &mut Forms,
        place: u32,
    ) -> Result<(), AllocError>
        requires known { AreKnown forms.old self.old.entries.items self.old.places.items }
        requires count { length self.old.places.items ≡ length values.now }
        requires whole { is_whole values.now place ≡ true }
        ensures kept { OnOk result (AreEntries forms.new self.new.entries.items) }
        ensures simples { OnOk result (simples forms.new self.new.entries.items ≡ with_derived values.now (simples forms.old self.old.entries.items) self.old.places.items (derivation values.now place)) }
        ensures places { OnOk result (self.new.places.items ≡ with_place (length self.old.entries.items) self.old.places.items (derivation values.now place)) }
    {
        match values.schema().derivation(place) {
            Some(derivation) => self.learn(alloc, values, forms, derivation),
            None => Ok(()),
        }
    }

    /// The types of a schema.
    ///
    /// # Errors
    ///
    /// `AllocError` where memory is refused, or there are more forms than have places.
    pub(crate) fn of(
        alloc: Global,
        values: &Values<'_>,
        forms: &mut Forms,
    ) -> Result<Known, AllocError>
        requires none { forms.old ≡ [] }
        ensures { IfOk result (λ k. AreSimples values.now forms.new k.entries.items k.places.items) }
    {
        let count = values.schema().document().nodes().len();
        let order = values.paths().order();
        let mut known = Known {
            entries: built_ins(alloc, forms)?,
            places: vec![in alloc; UNKNOWN; count]?,
        };
        for place in order {
            known.look_at(alloc, values, forms, *place)?;
        }
        Ok(known)
    }
}
