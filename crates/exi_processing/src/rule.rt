ghost use Rattle.std.specs.Prelude.{◌≡◌, None};
ghost use Rattle.exi_gram.specs.Terminals.{rule};
ghost use Rattle.exi_processing.specs.Handing.{rule_in, telling_of, terminal_in};
ghost use Rattle.exi_processing.specs.Rules.{built_in_terminal, rule_of, telling_in};

use exi_builtin::Learnable;
use exi_gram::{Named, Production, Terminal};
use exi_names::{Datatype, NameId};

/// How a name is told.
#[derive(Clone, Copy, Debug, PartialEq, Eq)]
pub enum Telling {
    /// In bits of its own.
    Spelled,
    /// Its local name in bits of its own, under the URI at this place, which the code told.
    Under(u32),
    /// By the code: the least places of its texts.
    Known(NameId),
}

/// What the value of an attribute is.
#[derive(Clone, Copy, Debug, PartialEq, Eq)]
pub enum Valuing {
    /// In a built-in grammar: a name where the attribute is `xsi:type`, and else a string (EXI 1.0, section 8.4.3).
    Untyped,
    /// Of the production's datatype.
    Typed,
    /// By its name, in a grammar of a schema (EXI 1.0, section 8.5.4.4): `xsi:type` and `xsi:nil` have theirs, a global
    /// attribute has its datatype, and any other a string.
    ByName,
}

/// What a production reads.
#[derive(Clone, Copy, Debug, PartialEq, Eq)]
pub enum Content {
    /// SD.
    StartDocument,
    /// ED.
    EndDocument,
    /// SE.
    Element(Telling),
    /// AT.
    Attribute(Telling, Valuing),
    /// CH.
    Characters,
    /// EE.
    EndElement,
    /// NS.
    Declaration,
    /// SC.
    SelfContained,
    /// CM.
    Comment,
    /// PI.
    Instruction,
    /// DT.
    DocumentType,
    /// ER.
    Entity,
}

/// A production: what it reads, and where it leads.
#[derive(Clone, Copy)]
pub struct Rule<'a> {
    /// What it reads.
    pub on: Content,
    /// The state of the same grammar that follows.
    pub to: u32,
    /// The grammar of a schema that an element opens, where the production tells one.
    pub inner: Option<u32>,
    /// The datatype of its value; where there is none, the value is a string.
    pub datatype: Option<&'a Datatype>,
}

impl Telling {
    /// How a production of a book tells the name that it has, if any.
    #[inline(always)]
    pub fn of(named: Named) -> Telling
        ensures { telling_of result ≡ telling_in named }
    {
        match named {
            Named::Nothing => Telling::Spelled,
            Named::Uri(uri) => Telling::Under(uri),
            Named::Name(name) => Telling::Known(name),
        }
    }
}

impl Content {
    /// What a production of a built-in grammar reads.
    #[inline(always)]
    pub fn of_built_in(production: Learnable) -> Content
        ensures { terminal_in result None ≡ built_in_terminal production }
    {
        match production {
            Learnable::Known(name, true) => {
                Content::Attribute(Telling::Known(name), Valuing::Untyped)
            }
            Learnable::Known(name, false) => Content::Element(Telling::Known(name)),
            Learnable::SeAny => Content::Element(Telling::Spelled),
            Learnable::AtAny => Content::Attribute(Telling::Spelled, Valuing::Untyped),
            Learnable::Ch(_) => Content::Characters,
            Learnable::Ee(_) => Content::EndElement,
            Learnable::Ed => Content::EndDocument,
            Learnable::Ns => Content::Declaration,
            Learnable::Sc => Content::SelfContained,
            Learnable::Er => Content::Entity,
            Learnable::Cm => Content::Comment,
            Learnable::Pi => Content::Instruction,
        }
    }
}

/// The name of `xsi:type`, and of `xsi:nil`: these places of the first string tables (EXI 1.0, appendix D).
const TYPE: NameId = NameId { uri: 2, local: 1 };

const NIL: NameId = NameId { uri: 2, local: 0 };

impl<'a> Rule<'a> {
    /// A production of a built-in grammar.
    #[inline(always)]
    pub fn of_built_in(production: Learnable, to: u32) -> Rule<'a>
        ensures { rule_in result ≡ record { on = built_in_terminal production; to = to; inner = None } }
    {
        Rule {
            on: Content::of_built_in(production),
            to,
            inner: None,
            datatype: None,
        }
    }

    /// The same, part by part: where the memory of one is lent, a copy needs none.
    #[inline(always)]
    pub fn copied(self) -> Rule<'a>
        ensures { result ≡ self.entry }
    {
        Rule {
            on: self.on,
            to: self.to,
            inner: self.inner,
            datatype: self.datatype,
        }
    }

    /// A production of a book, with the places of what it names.
    #[inline(always)]
    pub fn of_book(production: &'a Production, named: Named) -> Rule<'a>
        ensures { rule_in result ≡ rule_of named (rule production.now) }
    {
        let name = Telling::of(named);
        let (on, datatype) = match &production.on {
            Terminal::Sd => (Content::StartDocument, None),
            Terminal::Ed => (Content::EndDocument, None),
            Terminal::Se(_) | Terminal::SeIn(_) | Terminal::SeAny => (Content::Element(name), None),
            Terminal::At(_, datatype) => (Content::Attribute(name, Valuing::Typed), Some(datatype)),
            Terminal::AtIn(_) | Terminal::AtAny => (
                Content::Attribute(name, Valuing::ByName),
                None,
            ),
            Terminal::AtText(_) | Terminal::AtAnyText => {
                (Content::Attribute(name, Valuing::Typed), None)
            }
            Terminal::XsiType => {
                (
                    Content::Attribute(Telling::Known(TYPE), Valuing::ByName),
                    None,
                )
            }
            Terminal::XsiNil => (
                Content::Attribute(Telling::Known(NIL), Valuing::ByName),
                None,
            ),
            Terminal::Ch(datatype) => (Content::Characters, Some(datatype)),
            Terminal::ChText => (Content::Characters, None),
            Terminal::Ee => (Content::EndElement, None),
            Terminal::Ns => (Content::Declaration, None),
            Terminal::Sc => (Content::SelfContained, None),
            Terminal::Er => (Content::Entity, None),
            Terminal::Cm => (Content::Comment, None),
            Terminal::Pi => (Content::Instruction, None),
            Terminal::Dt => (Content::DocumentType, None),
        };
        Rule {
            on,
            to: production.to,
            inner: production.inner,
            datatype,
        }
    }
}
