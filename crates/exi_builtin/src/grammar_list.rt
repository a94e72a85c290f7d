ghost use Rattle.std.specs.Prelude.{◌≡◌, ◌<◌, ◌-◌, ◌^◌, ◌∷◌, ◌++◌, [], Some, length, slice_get, take, OnOk, OnErr};
ghost use Rattle.exi_builtin.specs.Learning.{changed_at, content_of, new_grammar, start_tag_of};
ghost use Rattle.exi_builtin.specs.Marks.{IsLearned};

use crate::element_grammar::ElementGrammar;
use crate::learnable::Learnable;
use crate::name_index::LookUp;
use exi_names::NameId;
use std::alloc::{AllocError, Global};
use std::marker::Model;

/// The grammars of elements, in the order in which they were made.
///
/// After those in use stand those of an earlier fragment, cleared: a new grammar takes the first of them and with it the memory
/// of its productions. A contract sees those in use alone.
#[derive(Drop)]
pub struct GrammarList {
    items: Vec<ElementGrammar>,
    used: u32,
}

impl Model for GrammarList {
    ghost use Rattle.std.specs.Prelude.{List, take};
    ghost use Rattle.exi_builtin.specs.declared.element_grammar.ElementGrammar.{ElementGrammar};
    ghost use Rattle.exi_builtin.specs.Kept.{AreSpares};

    ghost Value = { List ElementGrammar };

    ghost view = { λ l. take l.used l.items.items };

    ghost invariant = { λ l. AreSpares l.used l.items.items };
}

impl GrammarList {
    /// None.
    pub fn new(alloc: Global) -> GrammarList
        ensures { result ≡ [] }
    {
        GrammarList {
            items: Vec::new(alloc),
            used: 0,
        }
    }

    /// How many there are.
    #[inline(always)]
    pub fn len(&self) -> u32
        ensures { result ≡ length self.now }
    {
        self.used
    }

    /// The grammar of a number.
    #[inline(always)]
    pub fn at(&self, number: u32) -> &ElementGrammar
        requires { number < length self.now }
        ensures { slice_get self.now number ≡ Some result.now }
    {
        &self.items[number as usize]
    }

    /// Makes the grammar of a name. It takes no memory where there is a spare.
    ///
    /// # Errors
    ///
    /// `AllocError` where memory is refused; the list is then unchanged.
    pub fn push(&mut self, alloc: Global, name: NameId) -> Result<(), AllocError>
        requires { length self.old < 2 ^ 31 }
        ensures ok { OnOk result (self.new ≡ self.old ++ new_grammar name ∷ []) }
        ensures err { OnErr result (self.new ≡ self.old) }
    {
        let number = self.used as usize;
        if number < self.items.len() {
            self.items[number].name = name;
        } else {
            self.items.push(ElementGrammar::new(alloc, name))?;
        }
        self.used += 1;
        Ok(())
    }

    /// Sets the last one aside: cleared, it is a spare.
    pub fn pop(&mut self)
        requires { 0 < length self.old }
        ensures { self.new ≡ take (length self.old - 1) self.old }
    {
        self.used -= 1;
        self.items[self.used as usize].clear();
    }

    /// Sets all aside: cleared, they are spares. It takes no memory.
    pub fn clear(&mut self)
        ensures { self.new ≡ [] }
    {
        while self.used > 0 {
            self.pop();
        }
    }

    /// Adds a production in front of those of a start tag's content.
    ///
    /// # Errors
    ///
    /// `AllocError` where memory is refused; the list is then unchanged.
    pub fn learn_in_start_tag(
        &mut self,
        number: u32,
        production: Learnable,
        look_up: LookUp,
        alloc: Global,
    ) -> Result<(), AllocError>
        requires number { number < length self.old }
        requires few { length (start_tag_of (slice_get self.old number)) < 2 ^ 31 }
        requires learned { IsLearned production }
        ensures ok { OnOk result (self.new
            ≡ changed_at self.old number (λ g. record g { start_tag = production ∷ g.start_tag })) }
        ensures err { OnErr result (self.new ≡ self.old) }
    {
        let grammar = &mut self.items[number as usize];
        grammar.start_tag.push(production, look_up, alloc)
    }

    /// Adds a production in front of those of an element's content.
    ///
    /// # Errors
    ///
    /// `AllocError` where memory is refused; the list is then unchanged.
    pub fn learn_in_content(
        &mut self,
        number: u32,
        production: Learnable,
        look_up: LookUp,
        alloc: Global,
    ) -> Result<(), AllocError>
        requires number { number < length self.old }
        requires few { length (content_of (slice_get self.old number)) < 2 ^ 31 }
        requires learned { IsLearned production }
        ensures ok { OnOk result (self.new
            ≡ changed_at self.old number (λ g. record g { content = production ∷ g.content })) }
        ensures err { OnErr result (self.new ≡ self.old) }
    {
        let grammar = &mut self.items[number as usize];
        grammar.content.push(production, look_up, alloc)
    }
}
