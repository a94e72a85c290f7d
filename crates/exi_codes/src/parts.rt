ghost use Rattle.std.specs.Prelude.{◌≡◌, ◌==◌, ◌+◌, ◌<◌, ◌≤◌, ◌^◌, ◌||◌, [], false, All, IfOk, OnOk, filter, get_or, length, map};
ghost use Rattle.exi_gram.specs.Additions.{at_copy, content_copy, firsts_of, is_of_instance, later_state, loose_states, part_states, strict_state};
ghost use Rattle.exi_gram.specs.Books.{state_of};
ghost use Rattle.exi_gram.specs.Codes.{single};
ghost use Rattle.exi_gram.specs.Switches.{strict};
ghost use Rattle.exi_gram.specs.Tables.{most_productions, size};
ghost use Rattle.exi_gram.specs.Terminals.{rule, rules_of};
ghost use Rattle.exi_codes.specs.Made.{added_by, early_rest, loose_by, start_rest, with_parts, with_rules};

use crate::class::{is_of, is_of_instance};
use crate::early::attribute_states;
use crate::maker::{Maker, plain};
use crate::order::firsts;
use bitflags::Flags;
use exi_gram::{Class, CodedState, Grammar, Items, OptionFlags, Production, Terminal};
use std::alloc::AllocError;

/// Whether attributes may stand in a state: a mark tells it, or the content begins there.
fn is_early(marks: &[bool], grammar: &Grammar, place: u32) -> bool
    requires marked { place < length marks.now }
    ensures { result ≡ (get_or marks.now place false || place == grammar.now.content) }
{
    marks[place as usize] || place == grammar.content
}

impl Maker<'_> {
    /// Adds xsi:type and xsi:nil, where the state has them.
    fn push_instance(&self, made: &mut CodedState, state: &[Production]) -> Result<(), AllocError>
        requires room { size made.old + length state.now ≤ most_productions }
        ensures { OnOk result (made.new
            ≡ with_parts self.now.options.now self.now.places.now made.old (map single (filter is_of_instance (map rule state.now)))) }
    {
        for production in state {
            if is_of_instance(production) {
                self.push_single(made, production.copy(self.alloc)?)?;
            }
        }
        Ok(())
    }

    /// A state of a grammar that is kept to strictly (EXI 1.0, section 8.5.4.4.2).
    fn strict_state(&self, state: &[Production]) -> Result<CodedState, AllocError>
        requires few { length state.now < 2 ^ 30 }
        ensures { IfOk result (λ s. s ≡ state_of self.now.options.now self.now.places.now (strict_state (map rule state.now))) }
    {
        let mut made = CodedState::new(self.alloc);
        let firsts = firsts(self.alloc, state)?;
        self.push_firsts(&mut made, firsts.as_slice())?;
        self.push_instance(&mut made, state)?;
        Ok(made)
    }

    /// Adds to the start state what its schema does not describe, past the end of the element.
    fn push_start(
        &self,
        made: &mut CodedState,
        copy: u32,
        firsts: &[&Production],
    ) -> Result<(), AllocError>
        requires room { size made.old + (length firsts.now + 11) ≤ most_productions }
        ensures { OnOk result (made.new
            ≡ with_parts self.now.options.now self.now.places.now made.old (start_rest copy (map (λ p. rule p.now) firsts.now))) }
    {
        self.push_single(made, plain(Terminal::XsiType, 0))?;
        self.push_single(made, plain(Terminal::XsiNil, 0))?;
        self.push_single(made, plain(Terminal::AtAny, 0))?;
        self.push_untyped(made, 0, firsts)?;
        self.push_single(made, plain(Terminal::Ns, 0))?;
        self.push_single(made, plain(Terminal::Sc, 0))?;
        self.push_content(made, copy)?;
        Ok(())
    }

    /// The same for the other states in which attributes may stand.
    fn push_early(
        &self,
        made: &mut CodedState,
        place: u32,
        copy: u32,
        firsts: &[&Production],
    ) -> Result<(), AllocError>
        requires room { size made.old + (length firsts.now + 7) ≤ most_productions }
        ensures { OnOk result (made.new
            ≡ with_parts self.now.options.now self.now.places.now made.old (early_rest place copy (map (λ p. rule p.now) firsts.now))) }
    {
        self.push_single(made, plain(Terminal::AtAny, place))?;
        self.push_untyped(made, place, firsts)?;
        self.push_content(made, copy)?;
        Ok(())
    }

    /// Adds what the schema does not describe to a state.
    fn push_added(
        &self,
        made: &mut CodedState,
        place: u32,
        early: bool,
        copy: u32,
        firsts: &[&Production],
    ) -> Result<(), AllocError>
        requires room { size made.old + (length firsts.now + 12) ≤ most_productions }
        ensures { OnOk result (made.new
            ≡ with_parts self.now.options.now self.now.places.now made.old (added_by early place copy (map (λ p. rule p.now) firsts.now))) }
    {
        self.push_end(made, place, firsts)?;
        if place == 0 {
            self.push_start(made, copy, firsts)
        } else if early {
            self.push_early(made, place, copy, firsts)
        } else {
            self.push_content(made, place)
        }
    }

    /// A state of a grammar that is not kept to strictly (EXI 1.0, section 8.5.4.4.1).
    fn loose_state(
        &self,
        place: u32,
        early: bool,
        copy: u32,
        state: &[Production],
    ) -> Result<CodedState, AllocError>
        requires few { length state.now < 2 ^ 30 }
        ensures { IfOk result (λ s.
            s ≡ state_of self.now.options.now self.now.places.now (loose_by early place copy (firsts_of (map rule state.now)))) }
    {
        let mut made = CodedState::new(self.alloc);
        let firsts = firsts(self.alloc, state)?;
        self.push_firsts(&mut made, firsts.as_slice())?;
        self.push_added(&mut made, place, early, copy, firsts.as_slice())?;
        Ok(made)
    }

    /// Adds copies of productions, with the end of the element told as this state's.
    fn push_copied(
        &self,
        made: &mut CodedState,
        copy: u32,
        firsts: &[&Production],
    ) -> Result<(), AllocError>
        requires first { made.old.seconds ≡ [] }
        requires room { size made.old + length firsts.now ≤ most_productions }
        ensures { OnOk result (made.new
            ≡ with_rules self.now.options.now self.now.places.now made.old (map (at_copy copy) (map (λ p. rule p.now) firsts.now))) }
    {
        for production in firsts {
            let copied = if is_of(Class::Ee, production) {
                plain(Terminal::Ee, copy)
            } else {
                production.copy(self.alloc)?
            };
            self.push_first(made, copied)?;
        }
        Ok(())
    }

    /// The copy of a state, at this place.
    fn copied_state(&self, copy: u32, state: &[Production]) -> Result<CodedState, AllocError>
        requires few { length state.now < 2 ^ 30 }
        ensures { IfOk result (λ s. s
            ≡ state_of self.now.options.now self.now.places.now (later_state copy (map (at_copy copy) (firsts_of (map rule state.now))))) }
    {
        let mut made = CodedState::new(self.alloc);
        let firsts = firsts(self.alloc, state)?;
        self.push_copied(&mut made, copy, firsts.as_slice())?;
        self.push_end(&mut made, copy, firsts.as_slice())?;
        self.push_content(&mut made, copy)?;
        Ok(made)
    }

    /// The copy of the content's state, to which what is added leads.
    fn content_copy(&self, grammar: &Grammar) -> Result<CodedState, AllocError>
        requires states { length grammar.now.states < 2 ^ 30 }
        requires productions { All (λ state. length state < 2 ^ 30) grammar.now.states }
        ensures { IfOk result (λ s. s ≡ state_of self.now.options.now self.now.places.now (content_copy (rules_of grammar.now))) }
    {
        let states = grammar.states.as_slice();
        let copy = states.len() as u32;
        match states.get(grammar.content as usize) {
            Some(state) => self.copied_state(copy, state.as_slice()),
            None => self.copied_state(copy, &[]),
        }
    }

    /// The states of a grammar that is not kept to strictly.
    fn loose_states(&self, grammar: &Grammar) -> Result<Items<CodedState>, AllocError>
        requires states { length grammar.now.states < 2 ^ 30 }
        requires productions { All (λ state. length state < 2 ^ 30) grammar.now.states }
        ensures { IfOk result (λ states. states ≡ map (state_of self.now.options.now self.now.places.now) (loose_states (rules_of grammar.now))) }
    {
        let marks = attribute_states(self.alloc, grammar)?;
        let states = grammar.states.as_slice();
        let copy = states.len() as u32;
        let mut made = Items::new(self.alloc);
        for (place, state) in states.iter().enumerate() {
            let place = place as u32;
            let early = is_early(marks.as_slice(), grammar, place);
            made.push(self.loose_state(place, early, copy, state.as_slice())?)?;
        }
        made.push(self.content_copy(grammar)?)?;
        Ok(made)
    }

    /// The states of a grammar that is kept to strictly.
    fn strict_states(&self, grammar: &Grammar) -> Result<Items<CodedState>, AllocError>
        requires productions { All (λ state. length state < 2 ^ 30) grammar.now.states }
        ensures { IfOk result (λ states. states ≡ map (state_of self.now.options.now self.now.places.now) (map strict_state (rules_of grammar.now).states)) }
    {
        let mut made = Items::new(self.alloc);
        for state in grammar.states.as_slice() {
            made.push(self.strict_state(state.as_slice())?)?;
        }
        Ok(made)
    }

    /// The states of the grammar of an element or type, with what is added to them (EXI 1.0, section
    /// 8.5.4.4).
    ///
    /// # Errors
    ///
    /// `AllocError` where memory is refused.
    pub fn part_states(&self, grammar: &Grammar) -> Result<Items<CodedState>, AllocError>
        requires states { length grammar.now.states < 2 ^ 30 }
        requires productions { All (λ state. length state < 2 ^ 30) grammar.now.states }
        ensures { IfOk result (λ states. states
            ≡ map (state_of self.now.options.now self.now.places.now) (part_states (strict self.now.options.now) (rules_of grammar.now))) }
    {
        if self.options.flags.contains(OptionFlags::STRICT) {
            self.strict_states(grammar)
        } else {
            self.loose_states(grammar)
        }
    }
}
