//! The steps of grammars that are not yet normal.

ghost use Rattle.std.specs.Prelude.{◌≡◌};
ghost use Rattle.exi_gram.specs.Terminals.{step_rule, symbol};
ghost use Rattle.exi_proto.specs.Pieces.{leading, reading};
ghost use Rattle.exi_proto.specs.Places.{end_step};

use exi_gram::{Step, Terminal};

/// A step that reads something, and opens no grammar.
pub(crate) fn reading(on: Terminal, to: u32) -> Step
    ensures { step_rule result ≡ reading (symbol on) to }
{
    Step {
        on: Some(on),
        to,
        inner: None,
        particle: None,
    }
}

/// A step that reads nothing.
pub(crate) fn leading(to: u32) -> Step
    ensures { step_rule result ≡ leading to }
{
    Step {
        on: None,
        to,
        inner: None,
        particle: None,
    }
}

/// The end of the element in a state, or where something follows, the step to it.
pub(crate) fn ending(state: u32, next: Option<u32>) -> Step
    ensures { step_rule result ≡ end_step state next }
{
    match next {
        None => reading(Terminal::Ee, state),
        Some(to) => leading(to),
    }
}
