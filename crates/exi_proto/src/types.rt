//! The grammars of types.

ghost use Rattle.std.specs.Prelude.{◌≡◌, ◌≤◌, ◌+◌, ◌*◌, [], IfOk, if◌then◌else◌, length, map};
ghost use Rattle.exi_counts.specs.Counts.{most_states, wild_states};
ghost use Rattle.exi_counts.specs.Counts as count;
ghost use Rattle.exi_counts.specs.Kinds.{AreParticlesOf};
ghost use Rattle.exi_draft.specs.Drafts.{draft_of};
ghost use Rattle.exi_inherited.specs.Contents.{content_of};
ghost use Rattle.exi_inherited.specs.Uses.{uses_of};
ghost use Rattle.exi_proto.specs.Pieces.{empty_states};
ghost use Rattle.exi_gram.specs.Terminals.{step_rule};
ghost use Rattle.exi_proto.specs.Contents.{any_content, any_first};
ghost use Rattle.exi_proto.specs.Protos.{any_draft, any_empty_draft, attribute_states, complex_draft, content_states, value_states};

use crate::attributes::attribute_states;
use crate::contents::{one_end, push_content, push_states, value_states};
use crate::steps::{ending, reading};
use exi_counts::Counts;
use exi_gram::{Items, Proto, Step, Terminal};
use exi_inherited::content_of;
use std::alloc::{AllocError, Global};
use xsd_model::{Components, Wild};

/// The grammar of the simple type at a place, or its empty form.
pub(crate) fn simple_proto(
    alloc: Global,
    parts: &Components,
    of: u32,
    empty: bool,
) -> Result<Proto, AllocError>
    ensures { IfOk result (λ proto. draft_of proto ≡ complex_draft [] (if empty then empty_states else value_states parts.now of)) }
{
    let states = if empty {
        one_end(alloc, 0)?
    } else {
        value_states(alloc, parts, of, 0)?
    };
    Ok(Proto { states, content: 0 })
}

/// The first state of the grammar of `xs:anyType`, or of its empty form.
fn any_first(alloc: Global, empty: bool) -> Result<Items<Step>, AllocError>
    ensures { IfOk result (λ steps. map step_rule steps ≡ any_first empty) }
{
    let mut first = Items::new(alloc);
    first.push(reading(Terminal::AtAny, 0))?;
    if empty {
        first.push(ending(0, None))?;
    } else {
        first.push(reading(Terminal::SeAny, 1))?;
        first.push(ending(0, None))?;
        first.push(reading(Terminal::ChText, 1))?;
    }
    Ok(first)
}

/// The state of the content of `xs:anyType`, or of its empty form.
fn any_content(alloc: Global, empty: bool) -> Result<Items<Step>, AllocError>
    ensures { IfOk result (λ steps. map step_rule steps ≡ any_content empty) }
{
    let mut content = Items::new(alloc);
    if empty {
        content.push(ending(1, None))?;
    } else {
        content.push(reading(Terminal::SeAny, 1))?;
        content.push(ending(1, None))?;
        content.push(reading(Terminal::ChText, 1))?;
    }
    Ok(content)
}

/// The grammar of `xs:anyType`, or its empty form.
pub(crate) fn any_proto(alloc: Global, empty: bool) -> Result<Proto, AllocError>
    ensures { IfOk result (λ proto. draft_of proto ≡ (if empty then any_empty_draft else any_draft)) }
{
    let mut states = Items::new(alloc);
    states.push(any_first(alloc, empty)?)?;
    states.push(any_content(alloc, empty)?)?;
    Ok(Proto { states, content: 1 })
}

/// The grammar of the complex type at a place, which has this wildcard for attributes, or its empty form.
pub(crate) fn complex_proto(
    alloc: Global,
    counts: &Counts<'_>,
    of: u32,
    wild: &Option<Wild>,
    empty: bool,
) -> Result<Proto, AllocError>
    requires few { 2 * length (uses_of counts.now of) + (wild_states wild.now + (if empty then 1 else count.content_states counts.now (content_of counts.now of))) ≤ most_states }
    requires inside { AreParticlesOf counts.now (content_of counts.now of) }
    ensures { IfOk result (λ proto. draft_of proto ≡ complex_draft (attribute_states counts.now of wild.now) (if empty then empty_states else content_states counts.now (content_of counts.now of))) }
{
    let parts = counts.elements().parts();
    let mut states = attribute_states(alloc, parts, of, wild)?;
    let content = states.as_slice().len() as u32;
    if empty {
        push_states(&mut states, one_end(alloc, content)?, false)?;
    } else {
        let whole = content_of(alloc, parts, of)?;
        push_content(alloc, counts, &mut states, &whole)?;
    }
    Ok(Proto { states, content })
}
