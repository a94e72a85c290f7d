ghost use Rattle.std.specs.Prelude.{◌≡◌, ◌<◌, true, IfOk, length};
ghost use Rattle.std.specs.Option.{is_some};
ghost use Rattle.xsd_model.specs.Parts.{AreForms, representations};
ghost use Rattle.xsd_paths.specs.Paths.{is_whole_type};
ghost use Rattle.xsd_restrictions.specs.Entries.{IsEntry, simple_at};
ghost use Rattle.xsd_simple.specs.Simple.{facet_value, form_at, form_of, is_not_enumerable, is_united, simple_of};

use crate::known::Known;
use exi_gram::Items;
use std::alloc::{AllocError, Global};
use std::marker::Model;
use xsd_builtins::Family;
use xsd_components::{Schema, TypeAt};
use xsd_form_values::has_value;
use xsd_model::Form;
use xsd_nodes::{AttributeName, text_at};
use xsd_paths::Paths;
use xsd_restrictions::{Entry, Forms, Kind};
use xsd_values::Values;

/// A schema document with its simple types, which share how their values are represented.
#[derive(Debug, Drop)]
pub struct Simples<'a> {
    values: &'a Values<'a>,
    forms: Items<Form>,
    known: Known,
}

impl<'a> Model for Simples<'a> {
    ghost use Rattle.xsd_model.specs.Parts.{AreForms, representations};
    ghost use Rattle.xsd_simple.specs.Kept.{AreSimples};
    ghost use Rattle.xsd_simple.specs.Simple.{Shared};

    ghost Value = { Shared };

    ghost use Rattle.exi_names.proofs.Codes.{representation_code};
    ghost use Rattle.std.specs.Coded.{codes};

    ghost coded = { Prim.hlevel (codes, representation_code) };

    ghost view = { λ s. record { nodes = s.values.now; forms = representations s.forms } };

    ghost invariant = { λ s. AreForms 0 s.forms × AreSimples s.values.now (representations s.forms) s.known.entries.items s.known.places.items };
}

impl<'a> Simples<'a> {
    /// The simple types of a schema.
    ///
    /// # Errors
    ///
    /// `AllocError` where memory is refused.
    pub fn of(alloc: Global, values: &'a Values<'a>) -> Result<Simples<'a>, AllocError>
        ensures { IfOk result (λ s. s.nodes ≡ values.now) }
    {
        let mut forms = Forms::new(alloc);
        let known = Known::of(alloc, values, &mut forms)?;
        Ok(Simples {
            values,
            forms: forms.into_items(),
            known,
        })
    }

    /// What types have of their bases.
    pub fn values(&self) -> &Values<'a>
        ensures { result.now ≡ self.now.nodes }
    {
        self.values
    }

    /// The paths.
    pub fn paths(&self) -> &Paths<'a>
        ensures { result.now ≡ self.now.nodes }
    {
        self.values.paths()
    }

    /// The schema.
    pub fn schema(&self) -> &Schema<'a>
        ensures { result.now ≡ self.now.nodes }
    {
        self.values.schema()
    }

    /// What is kept of a simple type.
    fn entry(&self, of: TypeAt) -> &Entry
        ensures kept { IsEntry self.now.forms result.now }
        ensures simple { is_whole_type self.now.nodes of ≡ true → simple_at self.now.forms result.now ≡ simple_of self.now.nodes of }
    {
        self.known.entry(self.values.schema(), of)
    }

    /// The place of how the values of a simple type are represented, among those of [`Simples::into_forms`]. Known where each
    /// path from the type ends.
    pub fn form(&self, of: TypeAt) -> u32
        ensures there { is_whole_type self.now.nodes of ≡ true → result < length self.now.forms }
        ensures form { is_whole_type self.now.nodes of ≡ true → form_at self.now.forms result ≡ form_of (simple_of self.now.nodes of) }
    {
        self.entry(of).form
    }

    /// Whether a simple type is a union. Known where each path from it ends.
    pub fn is_united(&self, of: TypeAt) -> bool
        ensures { is_whole_type self.now.nodes of ≡ true → result ≡ is_united (simple_of self.now.nodes of).variety }
    {
        matches!(self.entry(of).kind, Kind::United)
    }

    /// Whether values of a simple type cannot be enumerated. Known where each path from it ends.
    pub fn is_not_enumerable(&self, of: TypeAt) -> bool
        ensures { is_whole_type self.now.nodes of ≡ true → result ≡ is_not_enumerable (simple_of self.now.nodes of) }
    {
        let entry = self.entry(of);
        !matches!(entry.kind, Kind::Atomic) || matches!(entry.family, Family::Names)
    }

    /// Whether a pattern stands at a step of a simple type's derivation. Known where each path from it ends.
    pub fn is_patterned(&self, of: TypeAt) -> bool
        ensures { is_whole_type self.now.nodes of ≡ true → result ≡ (simple_of self.now.nodes of).patterned }
    {
        self.entry(of).patterned
    }

    /// Whether the text of the facet at a place has a value of a simple type. Known where each path from that ends.
    ///
    /// # Errors
    ///
    /// `AllocError` where memory is refused.
    pub fn has_value(&self, alloc: Global, of: TypeAt, place: u32) -> Result<bool, AllocError>
        ensures { is_whole_type self.now.nodes of ≡ true → IfOk result (λ b. b ≡ is_some (facet_value self.now.nodes (form_of (simple_of self.now.nodes of)) place)) }
    {
        match text_at(
            self.schema().document().nodes(),
            AttributeName::Value,
            place,
        ) {
            Some(text) => has_value(alloc, self.forms.as_slice(), self.entry(of).form, text),
            None => Ok(false),
        }
    }

    /// How values of simple types are represented.
    pub fn into_forms(self) -> Items<Form>
        ensures forms { representations result ≡ self.entry.forms }
        ensures before { AreForms 0 result }
    {
        self.forms
    }
}
