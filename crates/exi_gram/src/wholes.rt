ghost use Rattle.std.specs.Prelude.{◌≡◌, [], IfOk, map};
ghost use Rattle.exi_names.specs.StartTables.{first_names};
ghost use Rattle.exi_gram.specs.Books.{placed_in};
ghost use Rattle.exi_gram.specs.Terminals.{rule, symbol};
ghost use Rattle.exi_gram.specs.Wholes.{document, document_content, document_end, plain, whole_start};

use crate::grammar::Production;
use crate::items::Items;
use crate::named::Named;
use crate::state::CodedState;
use crate::terminal::Terminal;
use std::alloc::{AllocError, Global};

/// A production that opens no grammar of a schema.
fn plain(on: Terminal, to: u32) -> Production
    ensures { rule result ≡ plain (symbol on) to }
{
    Production {
        on,
        to,
        inner: None,
    }
}

/// The first state.
fn start(alloc: Global) -> Result<CodedState, AllocError>
    ensures { IfOk result (λ s. s ≡ placed_in first_names whole_start) }
{
    let mut state = CodedState::new(alloc);
    state.push_first(plain(Terminal::Sd, 1), Named::Nothing)?;
    Ok(state)
}

/// The state in which the root is to come.
fn content(alloc: Global) -> Result<CodedState, AllocError>
    ensures { IfOk result (λ s. s ≡ placed_in first_names (document_content [])) }
{
    let mut state = CodedState::new(alloc);
    state.push_first(plain(Terminal::SeAny, 2), Named::Nothing)?;
    state.push_single(plain(Terminal::Dt, 1), Named::Nothing)?;
    state.push_group(plain(Terminal::Cm, 1), Named::Nothing)?;
    state.push_member(plain(Terminal::Pi, 1), Named::Nothing)?;
    Ok(state)
}

/// The state behind the root.
fn end(alloc: Global) -> Result<CodedState, AllocError>
    ensures { IfOk result (λ s. s ≡ placed_in first_names document_end) }
{
    let mut state = CodedState::new(alloc);
    state.push_first(plain(Terminal::Ed, 2), Named::Nothing)?;
    state.push_single(plain(Terminal::Cm, 2), Named::Nothing)?;
    state.push_single(plain(Terminal::Pi, 2), Named::Nothing)?;
    Ok(state)
}

/// The states of the Document grammar without a schema (EXI 1.0, section 8.4.1), before the options take
/// anything away.
///
/// # Errors
///
/// `AllocError` where memory is refused.
pub fn document(alloc: Global) -> Result<Items<CodedState>, AllocError>
    ensures { IfOk result (λ states. states ≡ map (placed_in first_names) (document [])) }
{
    let mut states = Items::new(alloc);
    states.push(start(alloc)?)?;
    states.push(content(alloc)?)?;
    states.push(end(alloc)?)?;
    Ok(states)
}
