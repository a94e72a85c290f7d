ghost use Rattle.std.specs.Prelude.{◌≡◌, map};
ghost use Rattle.exi_gram.specs.Outlines.{attribute_of};
ghost use Rattle.exi_gram.specs.Schemas.{IsSchema};
ghost use Rattle.exi_gram.specs.Terminals.{rules_of};

use crate::entry::{ElementEntry, TypeEntry};
use crate::grammar::Grammar;
use crate::items::Items;
use exi_names::{Datatype, QName, StartNames};
use std::marker::Model;

/// The grammars of a schema, or the Document grammar alone where there is none (EXI 1.0, sections 8.4
/// and 8.5).
///
/// Grammar 0 is that of documents. With a schema grammar 1 is that of fragments, and each grammar of an
/// element or type stands directly before its empty form, which `xsi:nil` takes. What an element is
/// opened with, where a state leads, and which names the string tables begin with are all there.
#[derive(Debug, Drop)]
pub struct Schema {
    known: bool,
    grammars: Items<Grammar>,
    globals: Items<ElementEntry>,
    fragment: Items<(QName, u32)>,
    attributes: Items<(QName, Datatype)>,
    types: Items<TypeEntry>,
    names: StartNames,
}

impl Model for Schema {
    ghost use Rattle.std.specs.Prelude.{map};
    ghost use Rattle.exi_gram.specs.Outlines.{Outline, attribute_of};
    ghost use Rattle.exi_gram.specs.Schemas.{IsSchema};
    ghost use Rattle.exi_gram.specs.Terminals.{rules_of};

    ghost Value = { Outline };

    ghost use Rattle.exi_names.proofs.Codes.{representation_code};
    ghost use Rattle.std.specs.Coded.{codes};

    ghost coded = { Prim.hlevel (codes, representation_code) };

    ghost view = { λ s.
        record {
          known = s.known;
          grammars = map rules_of s.grammars;
          globals = s.globals;
          fragment = s.fragment;
          attributes = map attribute_of s.attributes;
          types = s.types;
          names = s.names;
        } };

    ghost invariant = { λ s.
        IsSchema
        (record {
          known = s.known;
          grammars = map rules_of s.grammars;
          globals = s.globals;
          fragment = s.fragment;
          attributes = map attribute_of s.attributes;
          types = s.types;
          names = s.names;
        }) };
}

impl Schema {
    /// The schema of these grammars, names and places, which have to fit together as every schema's do.
    ///
    /// `fragment` has the names that elements have anywhere, each with the grammar that opens it; `names`
    /// has the first string tables.
    pub fn of(
        known: bool,
        grammars: Items<Grammar>,
        globals: Items<ElementEntry>,
        fragment: Items<(QName, u32)>,
        attributes: Items<(QName, Datatype)>,
        types: Items<TypeEntry>,
        names: StartNames,
    ) -> Schema
        requires schema { IsSchema
            (record {
              known = known;
              grammars = map rules_of grammars;
              globals = globals;
              fragment = fragment;
              attributes = map attribute_of attributes;
              types = types;
              names = names;
            }) }
        ensures { result
            ≡ record {
              known = known;
              grammars = map rules_of grammars;
              globals = globals;
              fragment = fragment;
              attributes = map attribute_of attributes;
              types = types;
              names = names;
            } }
    {
        Schema {
            known,
            grammars,
            globals,
            fragment,
            attributes,
            types,
            names,
        }
    }

    /// Whether there is a schema.
    pub fn is_known(&self) -> bool
        ensures known { result ≡ self.now.known }
        ensures schema { IsSchema self.now }
    {
        self.known
    }

    /// All grammars.
    pub fn grammars(&self) -> &[Grammar]
        ensures grammars { map rules_of result.now ≡ self.now.grammars }
        ensures schema { IsSchema self.now }
    {
        self.grammars.as_slice()
    }

    /// The global elements.
    pub fn globals(&self) -> &[ElementEntry]
        ensures globals { result.now ≡ self.now.globals }
        ensures schema { IsSchema self.now }
    {
        self.globals.as_slice()
    }

    /// The names that elements have anywhere, each with the grammar that opens it.
    pub fn fragment(&self) -> &[(QName, u32)]
        ensures fragment { result.now ≡ self.now.fragment }
        ensures schema { IsSchema self.now }
    {
        self.fragment.as_slice()
    }

    /// The global attributes, each with its datatype.
    pub fn attributes(&self) -> &[(QName, Datatype)]
        ensures attributes { map attribute_of result.now ≡ self.now.attributes }
        ensures schema { IsSchema self.now }
    {
        self.attributes.as_slice()
    }

    /// The types.
    pub fn types(&self) -> &[TypeEntry]
        ensures types { result.now ≡ self.now.types }
        ensures schema { IsSchema self.now }
    {
        self.types.as_slice()
    }

    /// The first string tables.
    pub fn names(&self) -> &StartNames
        ensures names { result.now ≡ self.now.names }
        ensures schema { IsSchema self.now }
    {
        &self.names
    }
}
