ghost use Rattle.std.specs.Prelude.{◌≡◌, IfOk};
ghost use Rattle.exi_gram.specs.Terminals.{rule, step_rule};

use crate::items::Items;
use crate::terminal::Terminal;
use std::alloc::{AllocError, Global};

/// A production of a state (EXI 1.0, section 8.4).
#[derive(Debug, Drop)]
pub struct Production {
    /// What it reads.
    pub on: Terminal,
    /// The place of the state that follows, in the same grammar.
    pub to: u32,
    /// The place of the grammar of the element that it opens, where that is known.
    pub inner: Option<u32>,
}

/// A grammar: its states, each with its productions.
#[derive(Debug, Drop)]
pub struct Grammar {
    /// The states, and of each the productions. The first state is the start.
    pub states: Items<Items<Production>>,
    /// The place of the state in which the element's content begins.
    pub content: u32,
}

/// A production of a grammar that is not yet in normal form, or a step that reads nothing (EXI 1.0,
/// section 8.5.4).
#[derive(Debug, Drop)]
pub struct Step {
    /// What it reads, if anything.
    pub on: Option<Terminal>,
    /// The place of the state that follows.
    pub to: u32,
    /// The place of the grammar of the element that it opens, where that is known.
    pub inner: Option<u32>,
    /// The place of its particle in the content model, where it reads an element of a name or of any name
    /// of a URI: in this order such productions of a state have their codes (EXI 1.0, section 8.5.4.1.6).
    pub particle: Option<u32>,
}

/// A grammar that is not yet in normal form (EXI 1.0, section 8.5.4.1).
#[derive(Debug, Drop)]
pub struct Proto {
    /// The states, and of each the steps. The first state is the start.
    pub states: Items<Items<Step>>,
    /// The place of the state in which the element's content begins.
    pub content: u32,
}

impl Production {
    /// Another production that is equal to this one.
    ///
    /// # Errors
    ///
    /// `AllocError` where memory is refused.
    pub fn copy(&self, alloc: Global) -> Result<Production, AllocError>
        ensures { IfOk result (λ p. rule p ≡ rule self.now) }
    {
        Ok(Production {
            on: self.on.copy(alloc)?,
            to: self.to,
            inner: self.inner,
        })
    }
}

impl Step {
    /// Another step that is equal to this one.
    ///
    /// # Errors
    ///
    /// `AllocError` where memory is refused.
    pub fn copy(&self, alloc: Global) -> Result<Step, AllocError>
        ensures { IfOk result (λ s. step_rule s ≡ step_rule self.now) }
    {
        let on = match &self.on {
            None => None,
            Some(on) => Some(on.copy(alloc)?),
        };
        Ok(Step {
            on,
            to: self.to,
            inner: self.inner,
            particle: self.particle,
        })
    }
}
