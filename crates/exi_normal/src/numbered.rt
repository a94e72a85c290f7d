//! The steps of a grammar, with numbers for their terminals.

ghost use Rattle.std.specs.Prelude.{◌≡◌, ◌<◌, [], IfOk, OnOk, length, map};
ghost use Rattle.exi_gram.specs.Terminals.{step_rule, step_symbol, symbol};
ghost use Rattle.exi_normal.specs.Steps.{AreApart, IsNumbered, KeepsSymbols, ShowsOn, ShowsState, ShowsStep, symbol_at, symbol_number, symbols, with_symbol};

use crate::key::Key;
use exi_gram::{Items, Proto, Step, Terminal};
use indexmap::IndexSet;
use std::alloc::{AllocError, Global};

/// A step.
#[derive(Clone, Copy)]
pub(crate) struct Move {
    /// The number of its terminal, where it reads something.
    pub on: Option<usize>,
    /// The place of the state that follows.
    pub to: u32,
    /// The place of the grammar of the element that it opens.
    pub inner: Option<u32>,
    /// The place of its particle.
    pub particle: Option<u32>,
}

/// The terminals of a grammar, each once: a terminal's place is its number.
#[derive(Drop)]
pub(crate) struct Terminals<'a> {
    keys: IndexSet<Key<'a>>,
}

impl<'a> Terminals<'a> {
    /// None.
    fn new(alloc: Global) -> Terminals<'a>
        ensures { symbols result ≡ [] }
    {
        Terminals {
            keys: IndexSet::new(alloc),
        }
    }

    /// How many there are.
    pub fn count(&self) -> usize
        ensures { result ≡ length (symbols self.now) }
    {
        self.keys.len()
    }

    /// The number of a terminal, which comes last where it is new.
    fn number(&mut self, terminal: &'a Terminal) -> Result<usize, AllocError>
        ensures number { IfOk result (λ n. n ≡ symbol_number (symbol terminal.now) (symbols self.old)) }
        ensures symbols { OnOk result (symbols self.new ≡ with_symbol (symbol terminal.now) (symbols self.old)) }
    {
        let (number, _) = self.keys.insert_full(Key { terminal })?;
        Ok(number)
    }

    /// The terminal that has a number.
    pub fn get(&self, number: usize) -> &'a Terminal
        requires there { number < length (symbols self.now) }
        ensures { symbol result.now ≡ symbol_at (symbols self.now) number }
    {
        self.keys.as_slice()[number].terminal
    }

    /// The number of what a step reads, if anything.
    fn on(&mut self, on: &'a Option<Terminal>) -> Result<Option<usize>, AllocError>
        requires apart { AreApart (symbols self.old) }
        ensures apart { OnOk result (AreApart (symbols self.new)) }
        ensures kept { OnOk result (KeepsSymbols (symbols self.old) (symbols self.new)) }
        ensures shows { IfOk result (λ n. ShowsOn (symbols self.new) n (step_symbol on.now)) }
    {
        match on {
            Some(terminal) => Ok(Some(self.number(terminal)?)),
            None => Ok(None),
        }
    }

    /// A step, with the number of its terminal.
    fn step(&mut self, step: &'a Step) -> Result<Move, AllocError>
        requires apart { AreApart (symbols self.old) }
        ensures apart { OnOk result (AreApart (symbols self.new)) }
        ensures kept { OnOk result (KeepsSymbols (symbols self.old) (symbols self.new)) }
        ensures shows { IfOk result (λ m. ShowsStep (symbols self.new) m (step_rule step.now)) }
    {
        Ok(Move {
            on: self.on(&step.on)?,
            to: step.to,
            inner: step.inner,
            particle: step.particle,
        })
    }

    /// The steps of a state.
    fn state(&mut self, alloc: Global, steps: &'a [Step]) -> Result<Items<Move>, AllocError>
        requires apart { AreApart (symbols self.old) }
        ensures apart { OnOk result (AreApart (symbols self.new)) }
        ensures kept { OnOk result (KeepsSymbols (symbols self.old) (symbols self.new)) }
        ensures shows { IfOk result (λ l. ShowsState (symbols self.new) l (map step_rule steps.now)) }
    {
        let mut moves = Items::new(alloc);
        for step in steps {
            moves.push(self.step(step)?)?;
        }
        Ok(moves)
    }
}

/// A grammar.
#[derive(Drop)]
pub(crate) struct Numbered<'a> {
    /// The grammar.
    pub proto: &'a Proto,
    /// Its states, and of each the steps.
    pub states: Vec<Items<Move>>,
    /// What they read.
    pub terminals: Terminals<'a>,
}

impl<'a> Numbered<'a> {
    /// A grammar, with numbers for its terminals.
    ///
    /// # Errors
    ///
    /// `AllocError` where memory is refused.
    pub fn of(alloc: Global, proto: &'a Proto) -> Result<Numbered<'a>, AllocError>
        ensures numbered { IfOk result IsNumbered }
        ensures proto { IfOk result (λ n. n.proto.now ≡ proto.now) }
    {
        let mut terminals = Terminals::new(alloc);
        let mut states = Vec::new(alloc);
        for steps in proto.states.as_slice() {
            states.push(terminals.state(alloc, steps.as_slice())?)?;
        }
        Ok(Numbered {
            proto,
            states,
            terminals,
        })
    }
}
