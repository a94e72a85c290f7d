//! The states that read attributes.

ghost use Rattle.std.specs.Prelude.{◌≡◌, ◌≤◌, ◌+◌, ◌*◌, ◌++◌, ◌∷◌, [], IfOk, OnOk, Some, if◌then◌else◌, length, map};
ghost use Rattle.exi_inherited.specs.Uses.{uses_of};
ghost use Rattle.exi_proto.specs.Pieces.{leading};
ghost use Rattle.exi_gram.specs.Terminals.{step_rule};
ghost use Rattle.exi_counts.specs.Counts.{most_states};
ghost use Rattle.exi_proto.specs.Places.{led_from, set};
ghost use Rattle.exi_proto.specs.Protos.{attribute_states, last_wild, use_states};
ghost use Rattle.exi_proto.specs.Attributes.{attribute_at, each_uri_at, each_use, made_of, wild_at};

use crate::datatypes::datatype_of;
use crate::steps::{leading, reading};
use exi_gram::{Items, Step, Terminal};
use exi_inherited::{Use, uses_of};
use exi_names::Txt;
use std::alloc::{AllocError, Global};
use xsd_model::{Components, Wild};

/// Adds the steps that read any attribute of each URI, and lead to a state.
fn push_each_uri(steps: &mut Items<Step>, uris: &[Txt], to: u32) -> Result<(), AllocError>
    ensures { OnOk result (map step_rule steps.new ≡ map step_rule steps.old ++ each_uri_at to uris.now) }
{
    for uri in uris {
        steps.push(reading(Terminal::AtIn(uri.copy()?), to))?;
    }
    Ok(())
}

/// Adds the steps that read an attribute that a wildcard allows, and lead to a state.
fn push_wild(steps: &mut Items<Step>, wild: &Option<Wild>, to: u32) -> Result<(), AllocError>
    ensures { OnOk result (map step_rule steps.new ≡ map step_rule steps.old ++ wild_at to wild.now) }
{
    match wild {
        None => Ok(()),
        Some(Wild::Any) => {
            steps.push(reading(Terminal::AtAny, to))?;
            Ok(())
        }
        Some(Wild::Listed(uris)) => push_each_uri(steps, uris.as_slice(), to),
    }
}

/// The step that reads the attribute at a place, and leads to a state; none where there is no such attribute.
fn typed_steps(
    alloc: Global,
    parts: &Components,
    attribute: u32,
    to: u32,
) -> Result<Items<Step>, AllocError>
    ensures { IfOk result (λ steps. map step_rule steps ≡ attribute_at to parts.now attribute) }
{
    let mut steps = Items::new(alloc);
    if let Some(attribute) = parts.attributes().get(attribute as usize) {
        let datatype = datatype_of(alloc, parts, attribute.of)?;
        steps.push(reading(Terminal::At(attribute.name.copy()?, datatype), to))?;
    }
    Ok(steps)
}

/// Adds the step that leaves out an attribute, unless it is required.
fn push_skip(steps: &mut Items<Step>, required: bool, to: u32) -> Result<(), AllocError>
    ensures { OnOk result (map step_rule steps.new ≡ map step_rule steps.old ++ (if required then [] else leading to ∷ [])) }
{
    if required {
        return Ok(());
    }
    steps.push(leading(to))?;
    Ok(())
}

/// Adds the two states of an attribute, which lead to what stands behind them.
fn push_use(
    alloc: Global,
    states: &mut Items<Items<Step>>,
    parts: &Components,
    wild: &Option<Wild>,
    used: Use,
) -> Result<(), AllocError>
    requires room { length states.old + 2 ≤ most_states }
    ensures { OnOk result (made_of states.new ≡ made_of states.old ++ set (length states.old) 0 (Some (length states.old + 2)) (use_states parts.now wild.now used.attribute used.required)) }
{
    let first = states.as_slice().len() as u32;
    let mut steps = typed_steps(alloc, parts, used.attribute, first + 1)?;
    push_skip(&mut steps, used.required, first + 2)?;
    push_wild(&mut steps, wild, first)?;
    states.push(steps)?;
    push_leading(alloc, states, first + 2)
}

/// Adds a state that leads to another.
fn push_leading(alloc: Global, states: &mut Items<Items<Step>>, to: u32) -> Result<(), AllocError>
    ensures { OnOk result (made_of states.new ≡ made_of states.old ++ (leading to ∷ []) ∷ []) }
{
    let mut steps = Items::new(alloc);
    steps.push(leading(to))?;
    states.push(steps)
}

/// Adds the state of the attributes that a wildcard alone allows, where there is one.
fn push_last_wild(
    alloc: Global,
    states: &mut Items<Items<Step>>,
    wild: &Option<Wild>,
) -> Result<(), AllocError>
    requires room { length states.old + 1 ≤ most_states }
    ensures { OnOk result (made_of states.new ≡ made_of states.old ++ led_from (length states.old) (last_wild wild.now)) }
{
    if wild.is_none() {
        return Ok(());
    }
    let first = states.as_slice().len() as u32;
    let mut steps = Items::new(alloc);
    push_wild(&mut steps, wild, first)?;
    steps.push(leading(first + 1))?;
    states.push(steps)
}

/// Adds the states of these attributes, each of which leads to what stands behind it.
fn push_uses(
    alloc: Global,
    states: &mut Items<Items<Step>>,
    parts: &Components,
    wild: &Option<Wild>,
    uses: &[Use],
) -> Result<(), AllocError>
    requires room { length states.old + 2 * length uses.now ≤ most_states }
    ensures { OnOk result (made_of states.new ≡ made_of states.old ++ led_from (length states.old) (each_use parts.now wild.now uses.now)) }
{
    for used in uses {
        push_use(alloc, states, parts, wild, *used)?;
    }
    Ok(())
}

/// The states of the attributes of the type at a place, each of which leads to what stands behind it.
///
/// # Errors
///
/// `AllocError` where memory is refused.
pub(crate) fn attribute_states(
    alloc: Global,
    parts: &Components,
    of: u32,
    wild: &Option<Wild>,
) -> Result<Items<Items<Step>>, AllocError>
    requires room { 2 * length (uses_of parts.now of) + 1 ≤ most_states }
    ensures { IfOk result (λ states. made_of states ≡ led_from 0 (attribute_states parts.now of wild.now)) }
{
    let mut states = Items::new(alloc);
    let uses = uses_of(alloc, parts, of)?;
    push_uses(alloc, &mut states, parts, wild, uses.as_slice())?;
    push_last_wild(alloc, &mut states, wild)?;
    Ok(states)
}
