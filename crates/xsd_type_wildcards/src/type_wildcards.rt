ghost use Rattle.std.specs.Prelude.{◌≡◌, true, IfOk};
ghost use Rattle.xsd_components.specs.declared.type_at.TypeAt.TheVariants as type_at;
ghost use Rattle.xsd_paths.specs.Paths.{is_whole};
ghost use Rattle.xsd_type_wildcards.specs.Sources.{source_of};
ghost use Rattle.xsd_type_wildcards.specs.TypeWildcards.{has_all_groups, is_second_wild};

use crate::groups::wild_groups;
use crate::second::{has_all_groups, is_second_wild, told_source};
use crate::source::Source;
use crate::types::wild_types;
use std::alloc::{AllocError, Global};
use std::marker::Model;
use xsd_components::TypeAt;
use xsd_paths::Paths;

/// A schema document, seen as the list of its elements, with which of its groups of attributes and types have an attribute
/// wildcard.
#[derive(Debug, Drop)]
pub struct TypeWildcards<'a> {
    paths: &'a Paths<'a>,
    groups: Vec<bool>,
    types: Vec<Option<Source>>,
}

impl<'a> Model for TypeWildcards<'a> {
    ghost use Rattle.std.specs.Prelude.{List};
    ghost use Rattle.xsd_tree.specs.declared.node.Node.{Node};
    ghost use Rattle.xsd_type_wildcards.specs.Told.{AreGroups, AreTypes};

    ghost Value = { List Node };

    ghost view = { λ w. w.paths.now };

    ghost invariant = { λ w. AreGroups w.paths.now w.groups.items × AreTypes w.paths.now w.types.items };
}

impl<'a> TypeWildcards<'a> {
    /// What is known of the wildcards of a schema.
    ///
    /// # Errors
    ///
    /// `AllocError` where memory is refused.
    pub fn of(alloc: Global, paths: &'a Paths<'a>) -> Result<TypeWildcards<'a>, AllocError>
        ensures { IfOk result (λ w. w ≡ paths.now) }
    {
        let groups = wild_groups(alloc, paths)?;
        let types = wild_types(alloc, paths, groups.as_slice())?;
        Ok(TypeWildcards {
            paths,
            groups,
            types,
        })
    }

    /// The paths.
    pub fn paths(&self) -> &Paths<'a>
        ensures { result.now ≡ self.now }
    {
        self.paths
    }

    /// Whether the element at a place derives a type with a wildcard of its own from one that has a wildcard. Asked where the
    /// paths from the base and from the groups of attributes end. As the base of a restriction, anyType does not count (XML
    /// Schema 1.0 Part 1, section 3.4.2).
    ///
    /// # Errors
    ///
    /// `AllocError` where memory is refused.
    pub fn is_second_wild(&self, alloc: Global, place: u32) -> Result<bool, AllocError>
        ensures { IfOk result (λ b. b ≡ is_second_wild self.now place) }
    {
        let groups = self.groups.as_slice();
        is_second_wild(alloc, self.paths, groups, self.types.as_slice(), place)
    }

    /// Where the type at a place has its wildcard from. The paths from the type end, and so do those from the groups of attributes
    /// that it and its bases name.
    pub fn source(&self, place: u32) -> Source
        requires whole { is_whole self.now place ≡ true }
        requires groups { has_all_groups self.now (type_at.Node place) ≡ true }
        ensures { result ≡ source_of self.now (type_at.Node place) }
    {
        told_source(self.paths, self.types.as_slice(), TypeAt::Node(place))
    }

    /// Whether the groups of attributes that the type at a place and those that it extends name are there, and the paths from them
    /// end. The paths from the type end.
    pub fn has_all_groups(&self, place: u32) -> bool
        requires whole { is_whole self.now place ≡ true }
        ensures { result ≡ has_all_groups self.now (type_at.Node place) }
    {
        has_all_groups(self.paths, self.types.as_slice(), TypeAt::Node(place))
    }
}
