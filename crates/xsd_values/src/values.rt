ghost use Rattle.std.specs.Prelude.{◌≡◌, true, IfOk, IfSome};
ghost use Rattle.xsd_contents.specs.Contents.{value_type};
ghost use Rattle.xsd_nodes.specs.Nodes.{is_at};
ghost use Rattle.xsd_nodes.specs.declared.part.Part.TheVariants as part;
ghost use Rattle.xsd_paths.specs.Paths.{is_whole, is_whole_type};
ghost use Rattle.xsd_values.specs.Mixed.{is_mixed_type};
ghost use Rattle.xsd_values.specs.Restricted.{restricted_type, value_of_base};

use crate::mixed::{mixed_told, mixed_types};
use crate::value_types::{value_told, value_types};
use std::alloc::{AllocError, Global};
use std::marker::Model;
use xsd_components::{Schema, TypeAt};
use xsd_nodes::{Part, holder, is_part};
use xsd_paths::Paths;

/// A schema document, with what its types have of their bases.
#[derive(Debug, Drop)]
pub struct Values<'a> {
    paths: &'a Paths<'a>,
    values: Vec<Option<TypeAt>>,
    mixed: Vec<bool>,
}

impl<'a> Model for Values<'a> {
    ghost use Rattle.std.specs.Prelude.{List};
    ghost use Rattle.xsd_tree.specs.declared.node.Node.{Node};
    ghost use Rattle.xsd_values.specs.Told.{AreMixed, AreValues};

    ghost Value = { List Node };

    ghost view = { λ v. v.paths.now };

    ghost invariant = { λ v. AreValues v.paths.now v.values.items × AreMixed v.paths.now v.mixed.items };
}

impl<'a> Values<'a> {
    /// The values of a schema.
    ///
    /// # Errors
    ///
    /// `AllocError` where memory is refused.
    pub fn of(alloc: Global, paths: &'a Paths<'a>) -> Result<Values<'a>, AllocError>
        ensures { IfOk result (λ v. v ≡ paths.now) }
    {
        Ok(Values {
            paths,
            values: value_types(alloc, paths)?,
            mixed: mixed_types(alloc, paths)?,
        })
    }

    /// The paths.
    pub fn paths(&self) -> &Paths<'a>
        ensures { result.now ≡ self.now }
    {
        self.paths
    }

    /// The schema.
    pub fn schema(&self) -> &Schema<'a>
        ensures { result.now ≡ self.now }
    {
        self.paths.schema()
    }

    /// The simple type of the content of a base, where there is one and that is a value. Known where each path from it ends.
    fn value_of_base(&self, base: Option<TypeAt>) -> Option<TypeAt>
        ensures { IfSome base (λ t. is_whole_type self.now t ≡ true) → result ≡ value_of_base self.now base }
    {
        match base {
            Some(base) => self.value_type(base),
            None => None,
        }
    }

    /// The simple type of a type's content, where that is a value. Known where each path from the type ends.
    pub fn value_type(&self, of: TypeAt) -> Option<TypeAt>
        ensures { is_whole_type self.now of ≡ true → result ≡ value_type self.now of }
    {
        value_told(self.values.as_slice(), of)
    }

    /// Whether a type's content is mixed. Known where each path from the type ends.
    pub fn is_mixed_type(&self, of: TypeAt) -> bool
        ensures { is_whole_type self.now of ≡ true → result ≡ is_mixed_type self.now of }
    {
        mixed_told(self.mixed.as_slice(), of)
    }

    /// The type whose values the restriction at a place restricts. Known where each path from it ends.
    ///
    /// # Errors
    ///
    /// `AllocError` where memory is refused.
    pub fn restricted_type(&self, alloc: Global, place: u32) -> Result<Option<TypeAt>, AllocError>
        requires restriction { is_at self.now part.Restriction place ≡ true }
        ensures { is_whole self.now place ≡ true → IfOk result (λ t. t ≡ restricted_type self.now place) }
    {
        let schema = self.schema();
        let base = schema.base(alloc, place)?;
        if !is_part(
            Part::SimpleContent,
            holder(schema.document().nodes(), place),
        ) {
            return Ok(base);
        }
        match schema.inline(place) {
            Some(inline) => Ok(Some(inline)),
            None => Ok(self.value_of_base(base)),
        }
    }
}
