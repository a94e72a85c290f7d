ghost use Rattle.std.specs.Prelude.{◌≡◌, IfOk};
ghost use Rattle.exi_run.specs.Refusals.{unwritten_line};

use crate::ending::{push_kind, push_number};
use exi_bits::Kind;
use std::alloc::{AllocError, Global};

/// Why no stream is written of an event text. Lines and events are counted from 1.
#[derive(Clone, Copy, Debug, PartialEq, Eq)]
pub enum Unwritten {
    /// This line says no event.
    Syntax(u64),
    /// No production stands for this event; or the list ends early, and the event is the one behind its last.
    NotDerived(u64),
    /// This event passes a limit.
    Limit {
        /// The number of the event.
        event: u64,
        /// The limit.
        kind: Kind,
    },
}

impl Unwritten {
    /// Its line, with the line's end.
    #[tactic(auto, unfolding(crate::specs::Refusals::unwritten_line))]
    pub(crate) fn line(self, alloc: Global) -> Result<Vec<u8>, AllocError>
        ensures { IfOk result (λ text. text.items ≡ unwritten_line self) }
    {
        let mut out = Vec::new(alloc);
        match self {
            Unwritten::Syntax(line) => push_number(&mut out, b"events Syntax ", line)?,
            Unwritten::NotDerived(event) => push_number(&mut out, b"events NotDerived ", event)?,
            Unwritten::Limit { event, kind } => {
                out.extend_from_slice(b"events ")?;
                push_kind(&mut out, kind)?;
                push_number(&mut out, b" ", event)?;
            }
        }
        out.push(b'\n')?;
        Ok(out)
    }
}
