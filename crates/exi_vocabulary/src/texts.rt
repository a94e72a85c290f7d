//! Texts without repeats, and texts in order.

ghost use Rattle.std.specs.Prelude.{◌≡◌, ◌≤◌, [], ◌∷◌, IfOk, OnOk, length, map};
ghost use Rattle.std.specs.Str.{chars};
ghost use Rattle.exi_gram.specs.Orders.{in_order, text_before};
ghost use Rattle.exi_vocabulary.specs.Collected.{in_order_behind, with_text, with_texts};

use exi_names::{Txt, TxtList};
use indexmap::IndexSet;
use std::alloc::{AllocError, Global};
use std::marker::Model;

/// Texts without repeats, each where it came first.
#[derive(Drop)]
pub(crate) struct Texts {
    texts: IndexSet<Txt>,
}

impl Model for Texts {
    ghost use Rattle.std.specs.Prelude.{List, ℕ};

    ghost Value = { List (List ℕ) };

    ghost view = { λ t. t.texts.keys };
}

impl Texts {
    /// These texts.
    pub(crate) fn of(alloc: Global, texts: &[&str]) -> Result<Texts, AllocError>
        ensures { IfOk result (λ t. t ≡ with_texts [] (map (λ s. chars s.now) texts.now)) }
    {
        let mut all = Texts {
            texts: IndexSet::new(alloc),
        };
        for text in texts {
            all.add(&Txt::of(alloc, text)?)?;
        }
        Ok(all)
    }

    /// Adds a text, unless it is among them.
    pub(crate) fn add(&mut self, text: &Txt) -> Result<(), AllocError>
        ensures { OnOk result (self.new ≡ with_text self.old text.now) }
    {
        if self.texts.contains(text) {
            return Ok(());
        }
        self.texts.insert(text.copy()?)?;
        Ok(())
    }

    /// Adds those of the texts that are not among them.
    pub(crate) fn add_all(&mut self, texts: &[Txt]) -> Result<(), AllocError>
        ensures { OnOk result (self.new ≡ with_texts self.old texts.now) }
    {
        for text in texts {
            self.add(text)?;
        }
        Ok(())
    }

    /// So many of the first ones as they stand, and the others in order.
    pub(crate) fn in_order_behind(&self, alloc: Global, first: usize) -> Result<TxtList, AllocError>
        requires first { first ≤ length self.now }
        ensures { IfOk result (λ l. l ≡ in_order_behind first self.now) }
    {
        let texts = self.texts.as_slice();
        let mut list = TxtList::new(alloc);
        for text in &texts[..first] {
            list.push(text.copy()?)?;
        }
        for text in sorted(alloc, &texts[first..])?.as_slice() {
            list.push(text.copy()?)?;
        }
        Ok(list)
    }
}

/// Texts in order.
fn sorted(alloc: Global, texts: &[Txt]) -> Result<Vec<&Txt>, AllocError>
    ensures { IfOk result (λ v. map (λ t. t.now) v.items ≡ in_order text_before texts.now) }
{
    let mut sorted = Vec::with_capacity(alloc, texts.len())?;
    for text in texts {
        sorted.push(text)?;
    }
    sorted.sort()?;
    Ok(sorted)
}
