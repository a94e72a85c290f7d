ghost use Rattle.std.specs.Prelude.{◌≡◌, ◌<◌, ◌^◌, ◌++◌, All, IfOk, OnOk, filter, get_or, length, map, not, reverse, true};
ghost use Rattle.exi_gram.specs.Additions.{is_attribute, rule_count};
ghost use Rattle.exi_gram.specs.Terminals.{rule, rules_of};
ghost use Rattle.exi_codes.specs.Marks.{MarksAttributes};

use crate::class::is_attribute;
use exi_gram::{Grammar, Items, Production};
use std::alloc::{AllocError, Global};

/// How many productions these states have.
fn count_of(states: &[Items<Production>]) -> u64
    requires states { length states.now < 2 ^ 30 }
    requires productions { All (λ state. length state < 2 ^ 30) states.now }
    ensures count { result ≡ rule_count (map (map rule) states.now) }
    ensures few { result < 2 ^ 63 }
{
    let mut count = 0;
    for state in states {
        count += state.as_slice().len() as u64;
    }
    count
}

/// Puts the states on the stack to which the attributes of a state lead, the first on top.
fn push_attributes(stack: &mut Vec<u32>, state: &[Production]) -> Result<(), AllocError>
    ensures { OnOk result (reverse stack.new.items ≡ map (λ r. r.to) (filter is_attribute (map rule state.now)) ++ reverse stack.old.items) }
{
    let mut place = state.len();
    while 0 < place {
        place -= 1;
        let production = &state[place];
        if is_attribute(production) {
            stack.push(production.to)?;
        }
    }
    Ok(())
}

/// Whether there is such a state, and it has no mark yet.
fn is_new(marks: &[bool], place: u32) -> bool
    ensures { result ≡ not (get_or marks.now place true) }
{
    match marks.get(place as usize) {
        Some(mark) => !*mark,
        None => false,
    }
}

/// Whether attributes alone lead to each state from the start.
///
/// # Errors
///
/// `AllocError` where memory is refused.
pub fn attribute_states(alloc: Global, grammar: &Grammar) -> Result<Vec<bool>, AllocError>
    requires states { length grammar.now.states < 2 ^ 30 }
    requires productions { All (λ state. length state < 2 ^ 30) grammar.now.states }
    ensures { IfOk result (λ marks. MarksAttributes (rules_of grammar.now) marks.items) }
{
    let states = grammar.states.as_slice();
    let mut marks = vec![in alloc; false; states.len()]?;
    let mut stack = Vec::new(alloc);
    stack.push(0)?;
    // The productions of a state are followed once, so that more is never on the stack.
    for _ in 0..count_of(states) + 1 {
        let Some(place) = stack.pop() else {
            return Ok(marks);
        };
        if is_new(marks.as_slice(), place) {
            marks[place as usize] = true;
            push_attributes(&mut stack, states[place as usize].as_slice())?;
        }
    }
    Ok(marks)
}
