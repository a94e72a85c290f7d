ghost use Rattle.std.specs.Prelude.{◌≡◌};
ghost use Rattle.exi_gram.specs.Candidates.{class_number, class_of};
ghost use Rattle.exi_gram.specs.Terminals.{symbol};

use crate::terminal::Terminal;

/// What a production reads, without its name and datatype: the terminals of these names.
#[derive(Clone, Copy, Debug, PartialEq, Eq)]
pub enum Class {
    /// `Sd`.
    Sd,
    /// `Ed`.
    Ed,
    /// `Se`.
    Se,
    /// `SeIn`.
    SeIn,
    /// `SeAny`.
    SeAny,
    /// `At`.
    At,
    /// `AtIn`.
    AtIn,
    /// `AtAny`.
    AtAny,
    /// `AtText`.
    AtText,
    /// `AtAnyText`.
    AtAnyText,
    /// `XsiType`.
    XsiType,
    /// `XsiNil`.
    XsiNil,
    /// `Ch`.
    Ch,
    /// `ChText`.
    ChText,
    /// `Ee`.
    Ee,
    /// `Ns`.
    Ns,
    /// `Sc`.
    Sc,
    /// `Er`.
    Er,
    /// `Cm`.
    Cm,
    /// `Pi`.
    Pi,
    /// `Dt`.
    Dt,
}

impl Class {
    /// Its number, from 0.
    pub fn number(self) -> usize
        ensures number { result ≡ class_number self }
    {
        match self {
            Class::Sd => 0,
            Class::Ed => 1,
            Class::Se => 2,
            Class::SeIn => 3,
            Class::SeAny => 4,
            Class::At => 5,
            Class::AtIn => 6,
            Class::AtAny => 7,
            Class::AtText => 8,
            Class::AtAnyText => 9,
            Class::XsiType => 10,
            Class::XsiNil => 11,
            Class::Ch => 12,
            Class::ChText => 13,
            Class::Ee => 14,
            Class::Ns => 15,
            Class::Sc => 16,
            Class::Er => 17,
            Class::Cm => 18,
            Class::Pi => 19,
            Class::Dt => 20,
        }
    }
}

impl Terminal {
    /// Its class.
    pub fn class(&self) -> Class
        ensures { result ≡ class_of (symbol self.now) }
    {
        match self {
            Terminal::Sd => Class::Sd,
            Terminal::Ed => Class::Ed,
            Terminal::Se(_) => Class::Se,
            Terminal::SeIn(_) => Class::SeIn,
            Terminal::SeAny => Class::SeAny,
            Terminal::At(_, _) => Class::At,
            Terminal::AtIn(_) => Class::AtIn,
            Terminal::AtAny => Class::AtAny,
            Terminal::AtText(_) => Class::AtText,
            Terminal::AtAnyText => Class::AtAnyText,
            Terminal::XsiType => Class::XsiType,
            Terminal::XsiNil => Class::XsiNil,
            Terminal::Ch(_) => Class::Ch,
            Terminal::ChText => Class::ChText,
            Terminal::Ee => Class::Ee,
            Terminal::Ns => Class::Ns,
            Terminal::Sc => Class::Sc,
            Terminal::Er => Class::Er,
            Terminal::Cm => Class::Cm,
            Terminal::Pi => Class::Pi,
            Terminal::Dt => Class::Dt,
        }
    }
}
