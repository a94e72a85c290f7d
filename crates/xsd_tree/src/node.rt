ghost use Rattle.std.specs.Prelude.{◌≡◌};
ghost use Rattle.xsd_tree.specs.Trees.{IsTree};

use exi_gram::Items;
use exi_names::{QName, Txt};
use std::marker::Model;

/// An element of a schema document.
#[derive(Debug, Drop)]
pub struct Node {
    /// Its name.
    pub name: QName,
    /// Its attributes, each with its text, in order.
    pub attributes: Items<(QName, Txt)>,
    /// The namespaces that it declares, each as prefix and URI, in order.
    pub scope: Items<(Txt, Txt)>,
    /// The place of the element that holds it.
    pub parent: Option<u32>,
    /// The number of its start among the document's events, counted from 1.
    pub event: u64,
}

/// The elements of a schema document in the order of their starts.
///
/// There is one at least, and at most 2^28. An element's parent stands before it, and one without a parent is the
/// element `schema` of XML Schema.
#[derive(Debug, Drop)]
pub struct Tree {
    nodes: Items<Node>,
}

impl Model for Tree {
    ghost use Rattle.std.specs.Prelude.{List};
    ghost use Rattle.xsd_tree.specs.Trees.{IsTree};
    ghost use Rattle.xsd_tree.specs.declared.node.Node.{Node};

    ghost Value = { List Node };

    ghost view = { λ t. t.nodes };

    ghost invariant = { λ t. IsTree t.nodes };
}

impl Tree {
    /// The tree of these elements.
    pub fn of(nodes: Items<Node>) -> Tree
        requires tree { IsTree nodes }
        ensures { result ≡ nodes }
    {
        Tree { nodes }
    }

    /// The elements.
    pub fn nodes(&self) -> &[Node]
        ensures nodes { result.now ≡ self.now }
        ensures tree { IsTree self.now }
    {
        self.nodes.as_slice()
    }
}
