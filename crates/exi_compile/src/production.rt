//! Productions of grammars that are made here.

ghost use Rattle.std.specs.Prelude.{◌≡◌, IfOk};
ghost use Rattle.exi_gram.specs.Terminals.{rule, symbol};
ghost use Rattle.exi_gram.specs.Wholes.{opening, plain};

use exi_gram::{Production, Terminal};
use exi_names::QName;
use std::alloc::AllocError;

/// A production that opens no grammar.
pub(crate) fn plain(on: Terminal, to: u32) -> Production
    ensures { rule result ≡ plain (symbol on) to }
{
    Production {
        on,
        to,
        inner: None,
    }
}

/// SE of a name, which leads to a state and opens the grammar at a place.
pub(crate) fn opening(to: u32, name: &QName, grammar: u32) -> Result<Production, AllocError>
    ensures { IfOk result (λ p. rule p ≡ opening to (name.now, grammar)) }
{
    Ok(Production {
        on: Terminal::Se(name.copy()?),
        to,
        inner: Some(grammar),
    })
}
