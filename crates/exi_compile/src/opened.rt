//! Grammars that are given the places of those which their elements open, and what stands at their start.

ghost use Rattle.std.specs.Prelude.{◌≡◌, ◌++◌, OnOk, map};
ghost use Rattle.exi_gram.specs.Terminals.{rule, rules_of};
ghost use Rattle.exi_compiled.specs.Compiled.{instance_rules, with_instance};
ghost use Rattle.exi_compile.specs.Opening.{opened_by, opened_inner, opened_rule};

use crate::production::plain;
use exi_gram::{Grammar, Items, Production, Terminal};
use std::alloc::AllocError;

/// Where the grammar stands that an element opens, if any; one that is not there has none before the last.
fn opened(grammars: &[u32], otherwise: u32, element: Option<u32>) -> Option<u32>
    ensures { result ≡ opened_inner grammars.now otherwise element }
{
    match element {
        None => None,
        Some(element) => match grammars.get(element as usize) {
            Some(grammar) => Some(*grammar),
            None => Some(otherwise),
        },
    }
}

/// Puts the places of grammars for those of elements in a state.
fn open_state(state: &mut [Production], grammars: &[u32], otherwise: u32)
    ensures { map rule state.new ≡ map (opened_rule grammars.now otherwise) (map rule state.old) }
{
    for production in state.iter_mut() {
        production.inner = opened(grammars, otherwise, production.inner);
    }
}

/// Puts the places of grammars for those of elements in all states of a grammar.
pub(crate) fn open_all(grammar: &mut Grammar, grammars: &[u32], otherwise: u32)
    ensures { rules_of grammar.new ≡ opened_by grammars.now otherwise (rules_of grammar.old) }
{
    let states = grammar.states.as_mut_slice();
    for state in states.iter_mut() {
        open_state(state.as_mut_slice(), grammars, otherwise);
    }
}

/// Adds `xsi:type` and `xsi:nil` to a state.
fn add_rules(state: &mut Items<Production>, cast: bool, nillable: bool) -> Result<(), AllocError>
    ensures { OnOk result (map rule state.new ≡ map rule state.old ++ instance_rules cast nillable) }
{
    if cast {
        state.push(plain(Terminal::XsiType, 0))?;
    }
    if nillable {
        state.push(plain(Terminal::XsiNil, 0))?;
    }
    Ok(())
}

/// Adds what may stand at the start of a grammar where a schema is kept to strictly: last in its first state.
pub(crate) fn add_instance(
    grammar: &mut Grammar,
    cast: bool,
    nillable: bool,
) -> Result<(), AllocError>
    ensures { OnOk result (rules_of grammar.new ≡ with_instance (instance_rules cast nillable) (rules_of grammar.old)) }
{
    let states = grammar.states.as_mut_slice();
    if !states.is_empty() {
        add_rules(&mut states[0], cast, nillable)?;
    }
    Ok(())
}
