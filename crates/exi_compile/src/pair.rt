//! The normal grammar of a type, and its empty form.

ghost use Rattle.std.specs.Prelude.{◌≡◌, ◌+◌, ◌-◌, ◌<◌, IfOk, length};
ghost use Rattle.exi_draft.specs.Drafts.{LeadsInside, draft_of};
ghost use Rattle.exi_counts.specs.Counts.{most_states};
ghost use Rattle.exi_compile.specs.Pairs.{IsPair, IsProto, AreProtos, pair_of};

use exi_counts::{Counts, MOST_STATES};
use exi_gram::{Grammar, Proto};
use exi_normal::{NormalStop, normal};
use exi_proto::{ProtoStop, type_proto};
use std::alloc::{AllocError, Global};

/// A normal grammar, and its empty form, which `xsi:nil` takes.
#[derive(Debug, Drop)]
pub(crate) struct Pair {
    /// The grammar.
    pub(crate) full: Grammar,
    /// Its empty form.
    pub(crate) empty: Grammar,
}

/// The same, not yet normal.
#[derive(Debug, Drop)]
struct Protos {
    /// The grammar.
    full: Proto,
    /// Its empty form.
    empty: Proto,
}

/// How many states a grammar has; so many that 32 bits do not tell them would find no memory.
pub(crate) fn state_count(grammar: &Grammar) -> Result<u32, AllocError>
    ensures { IfOk result (λ n. n ≡ length grammar.now.states) }
{
    let count = grammar.states.as_slice().len();
    if count <= u32::MAX as usize {
        Ok(count as u32)
    } else {
        Err(AllocError)
    }
}

/// The grammar of the type at a place, or its empty form, before it is normal.
fn proto(alloc: Global, counts: &Counts<'_>, of: u32, empty: bool) -> Result<Proto, NormalStop>
    requires exists { of < length counts.now.types }
    ensures made { IsProto result counts.now of empty }
    ensures inside { IfOk result (λ proto. LeadsInside (draft_of proto)) }
{
    match type_proto(alloc, counts, of, empty) {
        Ok(proto) => Ok(proto),
        Err(ProtoStop::TooLarge) => Err(NormalStop::TooLarge),
        Err(ProtoStop::Memory) => Err(NormalStop::Memory),
    }
}

/// The grammar of the type at a place and its empty form, before they are normal.
fn make_protos(alloc: Global, counts: &Counts<'_>, of: u32) -> Result<Protos, NormalStop>
    requires exists { of < length counts.now.types }
    ensures made { AreProtos result counts.now of }
    ensures full { IfOk result (λ protos. LeadsInside (draft_of protos.full)) }
    ensures empty { IfOk result (λ protos. LeadsInside (draft_of protos.empty)) }
{
    Ok(Protos {
        full: proto(alloc, counts, of, false)?,
        empty: proto(alloc, counts, of, true)?,
    })
}

/// The normal grammars of the type at a place, with so many states before them.
pub(crate) fn make_pair(
    alloc: Global,
    counts: &Counts<'_>,
    of: u32,
    total: u32,
) -> Result<Pair, NormalStop>
    requires exists { of < length counts.now.types }
    ensures { IsPair result (pair_of counts.now of total) }
{
    let protos = make_protos(alloc, counts, of)?;
    let most = MOST_STATES.saturating_sub(total);
    let empty = normal(alloc, &protos.empty, most)?;
    let left = most.saturating_sub(state_count(&empty)?);
    let full = normal(alloc, &protos.full, left)?;
    Ok(Pair { full, empty })
}
