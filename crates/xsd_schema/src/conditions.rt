//! What is wrong with an element of a schema document, the first that is (XML Schema 1.0).
//!
//! The conditions are asked of one element in this order, and the first that holds names the fault:
//!
//! ```text
//!   it stands where it may not                      UnknownPart
//!   it has a meaning that is not read               Unsupported
//!   something is missing, or has no value           BadPart
//!   another of its kind has its name                TwiceDeclared
//!   it names what is not there or does not fit      Unresolved
//!   it is made from itself                          Circular
//!   it is a pattern that is refused                 PatternRefused
//! ```

ghost use Rattle.std.specs.Prelude.{◌≡◌, IfOk};
ghost use Rattle.xsd_schema.specs.Shows.{is_bad, is_unread_or_wild, is_unresolved, is_unsupported, kind_at, shows_at};
ghost use Rattle.xsd_type_wildcards.specs.TypeWildcards.{is_second_wild};

use crate::facets::{
    enumerates_no_value, is_no_value, is_second_pattern, lacks_member, pattern_is_refused,
};
use crate::fitting::lacks_fitting_base;
use crate::simple_shown::is_circular;
use std::alloc::{AllocError, Global};
use std::marker::Model;
use xsd_circles::Circles;
use xsd_conditions::{
    has_bad_name, is_second, lacks_item, lacks_item_type, lacks_member_types, lacks_name,
    lacks_simple_base, lacks_value, restricts_nothing,
};
use xsd_model::SchemaKind;
use xsd_nodes::is_skipped;
use xsd_simple::Simples;
use xsd_slots::Order;
use xsd_told::{
    has_bad_bounds, is_named_and_refers, is_nameless, is_unread, lacks_base, lacks_head,
    names_no_type, refers_to_missing, refers_to_none,
};
use xsd_type_wildcards::TypeWildcards;
use xsd_wildcards::is_foreign_wild;

/// A schema document, seen as the list of its elements, with all that its conditions ask.
#[derive(Debug, Drop)]
pub struct Conditions<'a> {
    order: &'a Order<'a>,
    simples: &'a Simples<'a>,
    circles: &'a Circles<'a>,
    wildcards: &'a TypeWildcards<'a>,
}

impl<'a> Model for Conditions<'a> {
    ghost use Rattle.std.specs.Prelude.{◌≡◌, List};
    ghost use Rattle.xsd_tree.specs.declared.node.Node.{Node};

    ghost Value = { List Node };

    ghost view = { λ c. c.simples.now.nodes };

    ghost invariant = { λ c. (c.order.now ≡ c.simples.now.nodes) × (c.circles.now ≡ c.simples.now.nodes) × (c.wildcards.now ≡ c.simples.now.nodes) };
}

impl<'a> Conditions<'a> {
    /// The conditions of one schema, of which all these are.
    pub fn new(
        order: &'a Order<'a>,
        simples: &'a Simples<'a>,
        circles: &'a Circles<'a>,
        wildcards: &'a TypeWildcards<'a>,
    ) -> Conditions<'a>
        requires order { order.now ≡ simples.now.nodes }
        requires circles { circles.now ≡ simples.now.nodes }
        requires wildcards { wildcards.now ≡ simples.now.nodes }
        ensures { result ≡ simples.now.nodes }
    {
        Conditions {
            order,
            simples,
            circles,
            wildcards,
        }
    }

    /// Whether an element derives a type with attribute wildcards both on the type and on its base.
    fn is_second_wild(&self, alloc: Global, place: u32) -> Result<bool, AllocError>
        ensures { IfOk result (λ b. b ≡ is_second_wild self.now place) }
    {
        self.wildcards.is_second_wild(alloc, place)
    }

    /// Whether an element is a part that is not read, or has wildcards that are not.
    #[tactic(auto, unfolding(crate::specs::Shows::is_unread_or_wild))]
    fn is_unread_or_wild(&self, alloc: Global, joined: bool, place: u32) -> Result<bool, AllocError>
        ensures { IfOk result (λ b. b ≡ is_unread_or_wild joined self.now place) }
    {
        let schema = self.simples.schema();
        if is_unread(schema, joined, place) {
            return Ok(true);
        }
        let is_foreign = is_foreign_wild(alloc, schema.document().nodes(), place)?;
        if is_foreign {
            return Ok(true);
        }
        self.is_second_wild(alloc, place)
    }

    /// Whether an element has a meaning that is not read.
    fn is_unsupported(&self, alloc: Global, joined: bool, place: u32) -> Result<bool, AllocError>
        ensures { IfOk result (λ b. b ≡ is_unsupported joined self.now place) }
    {
        Ok(
            self.is_unread_or_wild(alloc, joined, place)?
                || enumerates_no_value(alloc, self.simples, place)?
                || is_second_pattern(alloc, self.simples, place)?,
        )
    }

    /// Whether something of an element is missing or has no value.
    fn is_bad(&self, alloc: Global, place: u32) -> Result<bool, AllocError>
        ensures { IfOk result (λ b. b ≡ is_bad self.now place) }
    {
        let schema = self.simples.schema();
        Ok(
            lacks_name(schema, place)
                || has_bad_name(alloc, schema, place)?
                || is_nameless(schema, place)
                || refers_to_none(schema, place)
                || is_named_and_refers(schema, place)
                || lacks_base(schema, place)
                || restricts_nothing(schema, place)
                || lacks_item_type(schema, place)
                || lacks_member_types(schema, place)
                || has_bad_bounds(alloc, schema, place)?
                || lacks_value(schema, place)
                || is_no_value(alloc, self.simples, place)?,
        )
    }

    /// Whether an element names what is not there or does not fit.
    fn is_unresolved(&self, alloc: Global, place: u32) -> Result<bool, AllocError>
        ensures { IfOk result (λ b. b ≡ is_unresolved self.now place) }
    {
        let schema = self.simples.schema();
        Ok(
            names_no_type(alloc, schema, place)?
                || refers_to_missing(alloc, schema, place)?
                || lacks_head(alloc, schema, place)?
                || lacks_simple_base(alloc, schema, place)?
                || lacks_item(alloc, schema, place)?
                || lacks_member(alloc, schema, place)?
                || lacks_fitting_base(alloc, self.simples.values(), place)?,
        )
    }

    /// What is wrong with an element outside annotations, the first that is.
    fn kind_at(
        &self,
        alloc: Global,
        joined: bool,
        place: u32,
    ) -> Result<Option<SchemaKind>, AllocError>
        ensures { IfOk result (λ k. k ≡ kind_at joined self.now place) }
    {
        let schema = self.simples.schema();
        if self.order.is_unknown(place) {
            Ok(Some(SchemaKind::UnknownPart))
        } else if self.is_unsupported(alloc, joined, place)? {
            Ok(Some(SchemaKind::Unsupported))
        } else if self.is_bad(alloc, place)? {
            Ok(Some(SchemaKind::BadPart))
        } else if is_second(alloc, schema, place)? {
            Ok(Some(SchemaKind::TwiceDeclared))
        } else if self.is_unresolved(alloc, place)? {
            Ok(Some(SchemaKind::Unresolved))
        } else if is_circular(alloc, schema, self.circles, place)? {
            Ok(Some(SchemaKind::Circular))
        } else if pattern_is_refused(alloc, schema, place)? {
            Ok(Some(SchemaKind::PatternRefused))
        } else {
            Ok(None)
        }
    }

    /// What is wrong with the element at a place, the first that is; nothing where it has no fault, or no effect. The documents
    /// that a schema includes and imports are given with it where they are `joined`.
    ///
    /// # Errors
    ///
    /// `AllocError` where memory is refused.
    #[tactic(auto, unfolding(crate::specs::Shows::shows_at))]
    pub fn shows(
        &self,
        alloc: Global,
        joined: bool,
        place: u32,
    ) -> Result<Option<SchemaKind>, AllocError>
        ensures { IfOk result (λ k. k ≡ shows_at joined self.now place) }
    {
        if is_skipped(self.simples.schema().document().nodes(), place) {
            return Ok(None);
        }
        self.kind_at(alloc, joined, place)
    }
}
