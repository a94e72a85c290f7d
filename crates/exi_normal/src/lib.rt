//! Normal grammars (EXI 1.0, sections 8.5.4.1.9 and 8.5.4.2): no step reads nothing any more, and no two productions of a state
//! read the same.
//!
//! ```text
//!   0: nothing to 1, EE     1: SE(a) to 0        becomes        0: SE(a) to 0, EE
//! ```
#![tactic(auto)]

mod groups;
mod key;
pub mod laws;
mod lists;
mod marks;
mod numbered;
mod order;
mod stop;
mod walk;
mod work;

ghost use Rattle.exi_draft.specs.Drafts.{LeadsInside, draft_of};
ghost use Rattle.exi_normal.specs.Promises.{Normalizes};
ghost use Rattle.exi_normal.specs.Normals.{normal_of};

use crate::numbered::Numbered;
use crate::work::{Found, Scratch};
use exi_gram::{Grammar, Proto};
use std::alloc::Global;
pub use stop::NormalStop;

/// The normal grammar of this one, with at most so many states: they stand in the order in which they are first reached, state
/// by state and production by production; behind them that of the content, where the start does not reach it, and those that
/// it alone reaches.
///
/// The grammar has to have a state, and each step and the content have to lead to one of its states.
///
/// # Errors
///
/// `TooLarge` exactly where there are more than `most` states; else `Differ` exactly where steps of one state that read the same
/// open different grammars. `Memory` where memory is refused.
pub fn normal(alloc: Global, proto: &Proto, most: u32) -> Result<Grammar, NormalStop>
    requires inside { LeadsInside (draft_of proto.now) }
    ensures { Normalizes result (normal_of (draft_of proto.now) most) }
{
    let numbered = Numbered::of(alloc, proto)?;
    let mut scratch = Scratch::new(alloc, &numbered)?;
    let mut found = Found::new(alloc);
    found.add(alloc, 0)?;
    found.run(alloc, &numbered, &mut scratch, most)?;
    found.add(alloc, proto.content)?;
    found.run(alloc, &numbered, &mut scratch, most)?;
    if found.lists.count() > most as usize {
        return Err(NormalStop::TooLarge);
    }
    if found.differs {
        return Err(NormalStop::Differ);
    }
    let content = found.lists.number(alloc, &[proto.content])?;
    Ok(Grammar {
        states: found.states,
        content: content as u32,
    })
}
