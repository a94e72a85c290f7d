ghost use Rattle.std.specs.Prelude.{◌≡◌, [], ◌∷◌, ◌++◌, OnOk, OnErr, IfOk};

use crate::txt::Txt;
use std::alloc::{AllocError, Global};
use std::marker::Model;

/// Texts, seen as the list of them.
#[derive(Debug, Drop)]
pub struct TxtList {
    items: Vec<Txt>,
}

impl Model for TxtList {
    ghost use Rattle.std.specs.Prelude.{List, ℕ};

    ghost Value = { List (List ℕ) };

    ghost view = { λ l. l.items.items };
}

impl TxtList {
    /// No texts.
    pub fn new(alloc: Global) -> TxtList
        ensures { result ≡ [] }
    {
        TxtList {
            items: Vec::new(alloc),
        }
    }

    /// Puts a text at the end.
    ///
    /// # Errors
    ///
    /// `AllocError` where memory is refused; the list is then unchanged.
    pub fn push(&mut self, text: Txt) -> Result<(), AllocError>
        ensures ok { OnOk result (self.new ≡ self.old ++ text ∷ []) }
        ensures err { OnErr result (self.new ≡ self.old) }
    {
        self.items.push(text)?;
        Ok(())
    }

    /// The texts.
    pub fn as_slice(&self) -> &[Txt]
        ensures { result.now ≡ self.now }
    {
        self.items.as_slice()
    }

    /// The texts as a vector, in the same memory.
    pub fn into_vec(self) -> Vec<Txt>
        ensures { result.items ≡ self }
    {
        self.items
    }

    /// Another list of the same texts.
    ///
    /// # Errors
    ///
    /// `AllocError` where memory is refused.
    pub fn copy(&self, alloc: Global) -> Result<TxtList, AllocError>
        ensures { IfOk result (λ l. l ≡ self.now) }
    {
        let mut items = Vec::new(alloc);
        for text in self.as_slice() {
            items.push(text.copy()?)?;
        }
        Ok(TxtList { items })
    }
}

/// Lists of texts, seen as the list of them.
#[derive(Debug, Drop)]
pub struct TxtLists {
    items: Vec<TxtList>,
}

impl Model for TxtLists {
    ghost use Rattle.std.specs.Prelude.{List, ℕ};

    ghost Value = { List (List (List ℕ)) };

    ghost view = { λ l. l.items.items };
}

impl TxtLists {
    /// No lists.
    pub fn new(alloc: Global) -> TxtLists
        ensures { result ≡ [] }
    {
        TxtLists {
            items: Vec::new(alloc),
        }
    }

    /// Puts a list at the end.
    ///
    /// # Errors
    ///
    /// `AllocError` where memory is refused; the lists are then unchanged.
    pub fn push(&mut self, list: TxtList) -> Result<(), AllocError>
        ensures ok { OnOk result (self.new ≡ self.old ++ list ∷ []) }
        ensures err { OnErr result (self.new ≡ self.old) }
    {
        self.items.push(list)?;
        Ok(())
    }

    /// The lists.
    pub fn as_slice(&self) -> &[TxtList]
        ensures { result.now ≡ self.now }
    {
        self.items.as_slice()
    }

    /// The lists as a vector, in the same memory.
    pub fn into_vec(self) -> Vec<TxtList>
        ensures { result.items ≡ self }
    {
        self.items
    }
}
