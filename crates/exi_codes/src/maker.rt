ghost use Rattle.std.specs.Prelude.{◌≡◌, ◌+◌, ◌<◌, ◌≤◌, ◌||◌, ◌∷◌, [], true, IfOk, MatchOption, OnOk, length, map};
ghost use Rattle.exi_gram.specs.Additions.{content_added, end_added, has_class, untyped, untyped_on};
ghost use Rattle.exi_gram.specs.Books.{is_kept};
ghost use Rattle.exi_gram.specs.declared.class.Class.TheVariants as class;
ghost use Rattle.exi_gram.specs.Codes.{group, single};
ghost use Rattle.exi_gram.specs.Naming.{entry_of};
ghost use Rattle.exi_gram.specs.Tables.{ends_in_group, most_productions, size};
ghost use Rattle.exi_gram.specs.Terminals.{at_text, cm, pi, rule, symbol};
ghost use Rattle.exi_gram.specs.Wholes.{plain};
ghost use Rattle.exi_codes.specs.Made.{grouped, with_part, with_parts, with_rules};

use crate::class::is_of;
use crate::places::Places;
use exi_gram::{Class, CodedState, Options, Production, Terminal};
use exi_names::QName;
use std::alloc::{AllocError, Global};

/// What the states of a book are made with: the options of the stream, and where the names stand in the
/// first string tables.
///
/// Nothing is added that the options do not leave (EXI 1.0, section 8.3), so a state is made once.
#[derive(Clone, Copy)]
pub struct Maker<'a> {
    pub alloc: Global,
    pub options: &'a Options,
    pub places: &'a Places,
}

/// A production that opens no grammar of a schema.
pub fn plain(on: Terminal, to: u32) -> Production
    ensures { rule result ≡ plain (symbol on) to }
{
    Production {
        on,
        to,
        inner: None,
    }
}

/// Whether one of the productions is the end of the element.
fn has_end(firsts: &[&Production]) -> bool
    ensures { result ≡ has_class class.Ee (map (λ p. rule p.now) firsts.now) }
{
    for production in firsts {
        if is_of(Class::Ee, production) {
            return true;
        }
    }
    false
}

/// The name of an attribute whose value is typed.
fn attribute_name(on: &Terminal) -> Option<&QName>
    ensures { MatchOption result (untyped_on (symbol on.now) ≡ []) (λ name. untyped_on (symbol on.now) ≡ at_text name.now ∷ []) }
{
    match on {
        Terminal::At(name, _) => Some(name),
        Terminal::AtIn(_)
        | Terminal::AtAny
        | Terminal::Se(_)
        | Terminal::SeIn(_)
        | Terminal::SeAny
        | Terminal::Ee
        | Terminal::Ch(_)
        | Terminal::ChText
        | Terminal::Sd
        | Terminal::Ed
        | Terminal::AtText(_)
        | Terminal::AtAnyText
        | Terminal::XsiType
        | Terminal::XsiNil
        | Terminal::Ns
        | Terminal::Sc
        | Terminal::Er
        | Terminal::Cm
        | Terminal::Pi
        | Terminal::Dt => None,
    }
}

impl Maker<'_> {
    /// Adds a production with the next code of one part.
    pub fn push_first(
        &self,
        state: &mut CodedState,
        production: Production,
    ) -> Result<(), AllocError>
        requires first { state.old.seconds ≡ [] }
        requires room { size state.old < most_productions }
        ensures { OnOk result (state.new ≡ with_rules self.now.options.now self.now.places.now state.old (rule production ∷ [])) }
    {
        if self.options.keeps(&production.on) {
            let named = self.places.named(&production.on);
            state.push_first(production, named)?;
        }
        Ok(())
    }

    /// Adds copies of productions with codes of one part.
    pub fn push_firsts(
        &self,
        state: &mut CodedState,
        productions: &[&Production],
    ) -> Result<(), AllocError>
        requires first { state.old.seconds ≡ [] }
        requires room { size state.old + length productions.now ≤ most_productions }
        ensures { OnOk result (state.new
            ≡ with_rules self.now.options.now self.now.places.now state.old (map (λ p. rule p.now) productions.now)) }
    {
        for production in productions {
            self.push_first(state, production.copy(self.alloc)?)?;
        }
        Ok(())
    }

    /// Adds a production that the next second part tells.
    pub fn push_single(
        &self,
        state: &mut CodedState,
        production: Production,
    ) -> Result<(), AllocError>
        requires room { size state.old < most_productions }
        ensures added { OnOk result (state.new
            ≡ with_part self.now.options.now self.now.places.now state.old (single (rule production))) }
        ensures size { OnOk result (size state.new ≤ size state.old + 1) }
    {
        if self.options.keeps(&production.on) {
            let named = self.places.named(&production.on);
            state.push_single(production, named)?;
        }
        Ok(())
    }

    /// Adds a production to the group that was added last, or where there is none yet as the first of one.
    /// Answers whether there is one now.
    fn push_member(
        &self,
        state: &mut CodedState,
        any: bool,
        production: Production,
    ) -> Result<bool, AllocError>
        requires group { any ≡ true → ends_in_group state.old.seconds ≡ true }
        requires room { size state.old < most_productions }
        ensures any { IfOk result (λ more. more ≡ (any || is_kept self.now.options.now (entry_of self.now.places.now (rule production)))) }
        ensures added { OnOk result (state.new ≡ grouped self.now.options.now self.now.places.now any state.old (rule production)) }
    {
        if !self.options.keeps(&production.on) {
            return Ok(any);
        }
        let named = self.places.named(&production.on);
        if any {
            state.push_member(production, named)?;
        } else {
            state.push_group(production, named)?;
        }
        Ok(true)
    }

    /// Adds comments and processing instructions, as a group.
    pub fn push_remarks(&self, state: &mut CodedState, to: u32) -> Result<(), AllocError>
        requires room { size state.old + 2 ≤ most_productions }
        ensures added { OnOk result (state.new
            ≡ with_part self.now.options.now self.now.places.now state.old (group (plain cm to ∷ plain pi to ∷ []))) }
        ensures size { OnOk result (size state.new ≤ size state.old + 2) }
    {
        let any = self.push_member(state, false, plain(Terminal::Cm, to))?;
        self.push_member(state, any, plain(Terminal::Pi, to))?;
        Ok(())
    }

    /// Adds the attributes with untyped values, as a group.
    pub fn push_untyped(
        &self,
        state: &mut CodedState,
        to: u32,
        firsts: &[&Production],
    ) -> Result<(), AllocError>
        requires room { size state.old + (length firsts.now + 1) ≤ most_productions }
        ensures added { OnOk result (state.new
            ≡ with_part self.now.options.now self.now.places.now state.old (untyped to (map (λ p. rule p.now) firsts.now))) }
        ensures size { OnOk result (size state.new ≤ size state.old + (length firsts.now + 1)) }
    {
        let mut any = false;
        for production in firsts {
            if let Some(name) = attribute_name(&production.on) {
                let again = plain(Terminal::AtText(name.copy()?), production.to);
                any = self.push_member(state, any, again)?;
            }
        }
        self.push_member(state, any, plain(Terminal::AtAnyText, to))?;
        Ok(())
    }

    /// Adds the end of the element, where it is none of the first productions.
    pub fn push_end(
        &self,
        state: &mut CodedState,
        to: u32,
        firsts: &[&Production],
    ) -> Result<(), AllocError>
        requires room { size state.old < most_productions }
        ensures added { OnOk result (state.new
            ≡ with_parts self.now.options.now self.now.places.now state.old (end_added to (map (λ p. rule p.now) firsts.now))) }
        ensures size { OnOk result (size state.new ≤ size state.old + 1) }
    {
        if !has_end(firsts) {
            self.push_single(state, plain(Terminal::Ee, to))?;
        }
        Ok(())
    }

    /// Adds what stands in any content, and leads to this state.
    pub fn push_content(&self, state: &mut CodedState, to: u32) -> Result<(), AllocError>
        requires room { size state.old + 5 ≤ most_productions }
        ensures { OnOk result (state.new
            ≡ with_parts self.now.options.now self.now.places.now state.old (content_added to)) }
    {
        self.push_single(state, plain(Terminal::SeAny, to))?;
        self.push_single(state, plain(Terminal::ChText, to))?;
        self.push_single(state, plain(Terminal::Er, to))?;
        self.push_remarks(state, to)?;
        Ok(())
    }
}
