ghost use Rattle.std.specs.Prelude.{◌≡◌, ◌∷◌, [], List, None, Some, OnOk, OnErr, MatchOption, length, if◌then◌else◌};
ghost use Rattle.exi_bits.specs.declared.fault.Kind.TheVariants as kind;
ghost use Rattle.exi_names.specs.Shown.{named};
ghost use Rattle.exi_processing.specs.Changes.{enclosing, innermost, same_texts, texts_of};
ghost use Rattle.exi_processing.specs.Plans.{other_element};
ghost use Rattle.exi_processing.specs.Stacks.{body_of};
ghost use Rattle.exi_tables.specs.Partitions.{IsName};

use crate::elements::Elements;
use crate::frames::Outer;
use exi_builtin::Overlay;
use exi_names::{NameId, NameRef};
use exi_tables::Tables;
use std::alloc::{AllocError, Global};
use std::marker::Model;

/// What an enclosing body puts aside while a self-contained fragment is read. Its innermost element is the one
/// for which the fragment stands.
#[derive(Drop)]
pub struct Aside<T: Tables + Drop> {
    tables: T,
    overlay: Overlay,
    elements: Elements,
    outer: Outer,
}

impl<T: Tables + Drop> Model for Aside<T> {
    ghost use Rattle.exi_processing.specs.Changes.{innermost, texts_of};
    ghost use Rattle.exi_processing.specs.Configurations.{Body};
    ghost use Rattle.exi_tables.specs.Partitions.{IsName};

    ghost Value = { Body };

    ghost view = { λ a. record {
      tables = T.held a.tables;
      learned = a.overlay;
      elements = a.elements;
      outer = a.outer;
      name = texts_of (T.held a.tables) (innermost a.elements);
    } };

    ghost invariant = { λ a. IsName (T.held a.tables) (innermost a.elements) };
}

/// Whether the texts of a name, which has to stand in the tables, are those of another.
pub fn has_texts<T: Tables>(tables: &T, name: NameId, other: NameRef<'_>) -> bool
    requires { IsName (T.held tables.now) name }
    ensures { result ≡ same_texts (texts_of (T.held tables.now) name) (named other.entry) }
{
    let uri = tables.uri_at(name.uri).unwrap();
    let local = tables.local_at(name.uri, name.local).unwrap();
    uri.same(other.uri) && local.same(other.local)
}

/// What enclosing bodies put aside. A contract sees it as a list, the innermost first.
#[derive(Drop)]
pub struct Asides<T: Tables + Drop> {
    items: Vec<Aside<T>>,
}

impl<T: Tables + Drop> Model for Asides<T> {
    ghost use Rattle.std.specs.Prelude.{List, reverse};
    ghost use Rattle.exi_processing.specs.Configurations.{Body};

    ghost Value = { List Body };

    ghost view = { λ a. reverse a.items.items };
}

impl<T: Tables + Drop> Aside<T> {
    /// A body, whose innermost element has to be one of its names.
    pub fn new(tables: T, overlay: Overlay, elements: Elements, outer: Outer) -> Aside<T>
        requires { IsName (T.held tables) (innermost elements) }
        ensures { result ≡ body_of (T.held tables) overlay elements outer }
    {
        Aside {
            tables,
            overlay,
            elements,
            outer,
        }
    }

    /// Its tables, what was learned, its elements and its state, with the innermost element closed.
    pub fn into_parts(self) -> (T, Overlay, Elements, Outer)
        ensures tables { T.held result.0 ≡ self.tables }
        ensures learned { result.1 ≡ self.learned }
        ensures elements { result.2 ≡ enclosing self.elements }
        ensures outer { result.3 ≡ self.outer }
    {
        let mut elements = self.elements;
        elements.close();
        (self.tables, self.overlay, elements, self.outer)
    }

    /// Whether its innermost element has the texts of this name.
    pub fn is_of(&self, name: NameRef<'_>) -> bool
        ensures { result ≡ same_texts self.now.name (named name.entry) }
    {
        match self.elements.innermost() {
            Some(element) => has_texts(&self.tables, element.name, name),
            None => has_texts(&self.tables, NameId { uri: 0, local: 0 }, name),
        }
    }
}

impl<T: Tables + Drop> Asides<T> {
    /// None.
    pub fn new(alloc: Global) -> Asides<T>
        ensures { result ≡ [] }
    {
        Asides {
            items: Vec::new(alloc),
        }
    }

    /// Makes room for one more.
    ///
    /// # Errors
    ///
    /// `AllocError` where memory is refused.
    pub fn reserve(&mut self) -> Result<(), AllocError>
        ensures { self.new ≡ self.old }
    {
        self.items.reserve(1)
    }

    /// Puts one more aside.
    ///
    /// # Errors
    ///
    /// `AllocError` where memory is refused; nothing is then changed.
    pub fn push(&mut self, body: Aside<T>) -> Result<(), AllocError>
        ensures ok { OnOk result (self.new ≡ body ∷ self.old) }
        ensures err { OnErr result (self.new ≡ self.old) }
    {
        self.items.push(body)?;
        Ok(())
    }

    /// Takes up the innermost.
    pub fn pop(&mut self) -> Option<Aside<T>>
        ensures { MatchOption result ((self.old ≡ []) × (self.new ≡ [])) (λ body. self.old ≡ body ∷ self.new) }
    {
        self.items.pop()
    }

    /// How many there are.
    pub fn len(&self) -> usize
        ensures { result ≡ length self.now }
    {
        self.items.len()
    }

    /// Whether the innermost element of the innermost has other texts than this name.
    pub fn refuse(&self, name: NameRef<'_>) -> bool
        ensures { other_element self.now (named name.entry) ≡ (if result then Some kind.ScRoot else None) }
    {
        match self.items.last() {
            Some(body) => !body.is_of(name),
            None => false,
        }
    }
}
