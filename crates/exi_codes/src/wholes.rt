ghost use Rattle.std.specs.Prelude.{◌≡◌, ◌+◌, ◌<◌, ◌≤◌, ◌^◌, ◌∷◌, [], IfOk, OnOk, length, map};
ghost use Rattle.exi_gram.specs.Books.{state_of};
ghost use Rattle.exi_gram.specs.Tables.{most_productions, size};
ghost use Rattle.exi_gram.specs.Wholes.{document, document_content, document_end, fragment, fragment_content, opening, whole_start};
ghost use Rattle.exi_codes.specs.Made.{with_rules};

use crate::maker::{Maker, plain};
use exi_gram::{CodedState, ElementEntry, Items, Production, Terminal};
use exi_names::QName;
use std::alloc::AllocError;

impl Maker<'_> {
    /// The first state.
    fn whole_start(&self) -> Result<CodedState, AllocError>
        ensures { IfOk result (λ s. s ≡ state_of self.now.options.now self.now.places.now whole_start) }
    {
        let mut state = CodedState::new(self.alloc);
        self.push_first(&mut state, plain(Terminal::Sd, 1))?;
        Ok(state)
    }

    /// Adds an element of the schema, whose end leads to this state.
    fn push_opening(
        &self,
        state: &mut CodedState,
        to: u32,
        name: &QName,
        grammar: u32,
    ) -> Result<(), AllocError>
        requires first { state.old.seconds ≡ [] }
        requires room { size state.old < most_productions }
        ensures { OnOk result (state.new
            ≡ with_rules self.now.options.now self.now.places.now state.old (opening to (name.now, grammar) ∷ [])) }
    {
        let element = Production {
            on: Terminal::Se(name.copy()?),
            to,
            inner: Some(grammar),
        };
        self.push_first(state, element)?;
        Ok(())
    }

    /// Adds the global elements.
    fn push_globals(
        &self,
        state: &mut CodedState,
        globals: &[ElementEntry],
    ) -> Result<(), AllocError>
        requires first { state.old.seconds ≡ [] }
        requires room { size state.old + length globals.now ≤ most_productions }
        ensures { OnOk result (state.new
            ≡ with_rules self.now.options.now self.now.places.now state.old (map (opening 2) (map (λ e. (e.name, e.full)) globals.now))) }
    {
        for global in globals {
            self.push_opening(state, 2, &global.name, global.full)?;
        }
        Ok(())
    }

    /// Adds the elements that are declared anywhere.
    fn push_declared(
        &self,
        state: &mut CodedState,
        declared: &[(QName, u32)],
    ) -> Result<(), AllocError>
        requires first { state.old.seconds ≡ [] }
        requires room { size state.old + length declared.now ≤ most_productions }
        ensures { OnOk result (state.new
            ≡ with_rules self.now.options.now self.now.places.now state.old (map (opening 1) declared.now)) }
    {
        for (name, grammar) in declared {
            self.push_opening(state, 1, name, *grammar)?;
        }
        Ok(())
    }

    /// The state of a document in which the root is to come.
    fn document_content(&self, globals: &[ElementEntry]) -> Result<CodedState, AllocError>
        requires few { length globals.now < 2 ^ 30 }
        ensures { IfOk result (λ s. s
            ≡ state_of self.now.options.now self.now.places.now (document_content (map (λ e. (e.name, e.full)) globals.now))) }
    {
        let mut state = CodedState::new(self.alloc);
        self.push_globals(&mut state, globals)?;
        self.push_first(&mut state, plain(Terminal::SeAny, 2))?;
        self.push_single(&mut state, plain(Terminal::Dt, 1))?;
        self.push_remarks(&mut state, 1)?;
        Ok(state)
    }

    /// The state of a document behind the root.
    fn document_end(&self) -> Result<CodedState, AllocError>
        ensures { IfOk result (λ s. s ≡ state_of self.now.options.now self.now.places.now document_end) }
    {
        let mut state = CodedState::new(self.alloc);
        self.push_first(&mut state, plain(Terminal::Ed, 2))?;
        self.push_single(&mut state, plain(Terminal::Cm, 2))?;
        self.push_single(&mut state, plain(Terminal::Pi, 2))?;
        Ok(state)
    }

    /// The state of a fragment past its start.
    fn fragment_content(&self, declared: &[(QName, u32)]) -> Result<CodedState, AllocError>
        requires few { length declared.now < 2 ^ 30 }
        ensures { IfOk result (λ s. s ≡ state_of self.now.options.now self.now.places.now (fragment_content declared.now)) }
    {
        let mut state = CodedState::new(self.alloc);
        self.push_declared(&mut state, declared)?;
        self.push_first(&mut state, plain(Terminal::SeAny, 1))?;
        self.push_first(&mut state, plain(Terminal::Ed, 1))?;
        self.push_single(&mut state, plain(Terminal::Cm, 1))?;
        self.push_single(&mut state, plain(Terminal::Pi, 1))?;
        Ok(state)
    }

    /// The states of the Document grammar (EXI 1.0, sections 8.4.1 and 8.5.1) of these global elements.
    ///
    /// # Errors
    ///
    /// `AllocError` where memory is refused.
    pub fn document(&self, globals: &[ElementEntry]) -> Result<Items<CodedState>, AllocError>
        requires few { length globals.now < 2 ^ 30 }
        ensures { IfOk result (λ states. states
            ≡ map (state_of self.now.options.now self.now.places.now) (document (map (λ e. (e.name, e.full)) globals.now))) }
    {
        let mut states = Items::new(self.alloc);
        states.push(self.whole_start()?)?;
        states.push(self.document_content(globals)?)?;
        states.push(self.document_end()?)?;
        Ok(states)
    }

    /// The states of the Fragment grammar (EXI 1.0, sections 8.4.2 and 8.5.2) of the elements that are
    /// declared anywhere.
    ///
    /// # Errors
    ///
    /// `AllocError` where memory is refused.
    pub fn fragment(&self, declared: &[(QName, u32)]) -> Result<Items<CodedState>, AllocError>
        requires few { length declared.now < 2 ^ 30 }
        ensures { IfOk result (λ states. states
            ≡ map (state_of self.now.options.now self.now.places.now) (fragment declared.now)) }
    {
        let mut states = Items::new(self.alloc);
        states.push(self.whole_start()?)?;
        states.push(self.fragment_content(declared)?)?;
        Ok(states)
    }
}
