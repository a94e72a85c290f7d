ghost use Rattle.std.specs.Prelude.{◌≡◌, IfOk};
ghost use Rattle.xsd_components.specs.References.{component};

use crate::globals::{find, firsts_of};
use exi_gram::Items;
use exi_names::{QName, Txt};
use indexmap::IndexMap;
use std::alloc::{AllocError, Global as Memory};
use std::marker::Model;
use xsd_document::Document;
use xsd_nodes::Part;
use xsd_tree::Tree;

/// A component that stands directly within a schema.
#[derive(Debug, Drop)]
pub struct Global {
    /// The place of its element.
    pub place: u32,
    /// Its name.
    pub name: QName,
}

/// A schema document with the names of its components, seen as the list of its elements.
#[derive(Debug, Drop)]
pub struct Schema<'a> {
    document: Document<'a>,
    firsts: IndexMap<Txt, Items<Global>>,
}

impl<'a> Model for Schema<'a> {
    ghost use Rattle.std.specs.Prelude.{List};
    ghost use Rattle.xsd_components.specs.Globals.{AreFirsts};
    ghost use Rattle.xsd_tree.specs.declared.node.Node.{Node};

    ghost Value = { List Node };

    ghost view = { λ s. s.document };

    ghost invariant = { λ s. AreFirsts s.document s.firsts.entries };
}

impl<'a> Schema<'a> {
    /// The schema of a tree.
    ///
    /// # Errors
    ///
    /// `AllocError` where memory is refused.
    pub fn of(alloc: Memory, tree: &'a Tree) -> Result<Schema<'a>, AllocError>
        ensures { IfOk result (λ s. s ≡ tree.now) }
    {
        let document = Document::of(alloc, tree)?;
        let firsts = firsts_of(alloc, tree.nodes())?;
        Ok(Schema { document, firsts })
    }

    /// The document.
    pub fn document(&self) -> &Document<'a>
        ensures { result.now ≡ self.now }
    {
        &self.document
    }

    /// The place of the first component of these parts and this name. However many components there are, it is found by the
    /// name at once.
    pub fn component(&self, kind: &[Part], name: &QName) -> Option<u32>
        ensures { result ≡ component self.now kind.now name.now }
    {
        find(self.document.nodes(), &self.firsts, kind, name)
    }
}
