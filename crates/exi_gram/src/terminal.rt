ghost use Rattle.std.specs.Prelude.{◌≡◌, IfOk};
ghost use Rattle.exi_gram.specs.Terminals.{symbol};

use exi_names::{Datatype, QName, Txt};
use std::alloc::{AllocError, Global};

/// What a production of a grammar reads, or writes (EXI 1.0, sections 8.4 and 8.5).
#[derive(Debug, Drop)]
pub enum Terminal {
    /// The start of the document or fragment.
    Sd,
    /// The end of the document or fragment.
    Ed,
    /// An element of this name.
    Se(QName),
    /// An element of any name of this URI.
    SeIn(Txt),
    /// An element of any name.
    SeAny,
    /// An attribute of this name, with a value of this datatype.
    At(QName, Datatype),
    /// An attribute of any name of this URI.
    AtIn(Txt),
    /// An attribute of any name.
    AtAny,
    /// An attribute of this name, whose value is untyped.
    AtText(QName),
    /// An attribute of any name, whose value is untyped.
    AtAnyText,
    /// The attribute `xsi:type`.
    XsiType,
    /// The attribute `xsi:nil`.
    XsiNil,
    /// Characters, as a value of this datatype.
    Ch(Datatype),
    /// Untyped characters.
    ChText,
    /// The end of the element.
    Ee,
    /// A namespace declaration.
    Ns,
    /// A self-contained fragment.
    Sc,
    /// An entity reference.
    Er,
    /// A comment.
    Cm,
    /// A processing instruction.
    Pi,
    /// A document type declaration.
    Dt,
}

impl Terminal {
    /// Another terminal that is equal to this one.
    ///
    /// # Errors
    ///
    /// `AllocError` where memory is refused.
    pub fn copy(&self, alloc: Global) -> Result<Terminal, AllocError>
        ensures { IfOk result (λ t. symbol t ≡ symbol self.now) }
    {
        match self {
            Terminal::Sd => Ok(Terminal::Sd),
            Terminal::Ed => Ok(Terminal::Ed),
            Terminal::Se(name) => Ok(Terminal::Se(name.copy()?)),
            Terminal::SeIn(uri) => Ok(Terminal::SeIn(uri.copy()?)),
            Terminal::SeAny => Ok(Terminal::SeAny),
            Terminal::At(name, datatype) => {
                Ok(Terminal::At(name.copy()?, datatype.copy(alloc)?))
            }
            Terminal::AtIn(uri) => Ok(Terminal::AtIn(uri.copy()?)),
            Terminal::AtAny => Ok(Terminal::AtAny),
            Terminal::AtText(name) => Ok(Terminal::AtText(name.copy()?)),
            Terminal::AtAnyText => Ok(Terminal::AtAnyText),
            Terminal::XsiType => Ok(Terminal::XsiType),
            Terminal::XsiNil => Ok(Terminal::XsiNil),
            Terminal::Ch(datatype) => Ok(Terminal::Ch(datatype.copy(alloc)?)),
            Terminal::ChText => Ok(Terminal::ChText),
            Terminal::Ee => Ok(Terminal::Ee),
            Terminal::Ns => Ok(Terminal::Ns),
            Terminal::Sc => Ok(Terminal::Sc),
            Terminal::Er => Ok(Terminal::Er),
            Terminal::Cm => Ok(Terminal::Cm),
            Terminal::Pi => Ok(Terminal::Pi),
            Terminal::Dt => Ok(Terminal::Dt),
        }
    }
}
