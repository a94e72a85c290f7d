//! What is read next from states.

ghost use Rattle.std.specs.Prelude.{◌≡◌, ◌++◌, [], IfOk, OnOk, get_or, map, reverse};
ghost use Rattle.exi_normal.specs.Numbers.{into, moves_at, readings_from};

use crate::marks::Marks;
use crate::numbered::Move;
use exi_gram::Items;
use std::alloc::{AllocError, Global};

/// A step that reads something.
#[derive(Clone, Copy)]
pub(crate) struct Reading {
    /// The number of its terminal.
    pub on: usize,
    /// The place of the state that follows.
    pub to: u32,
    /// The place of the grammar of the element that it opens.
    pub inner: Option<u32>,
    /// The place of its particle.
    pub particle: Option<u32>,
}

/// Puts steps that read nothing, and lead to these states, before those to do: the first of them is then the last.
fn begin(todo: &mut Vec<Move>, members: &[u32]) -> Result<(), AllocError>
    ensures { OnOk result (reverse todo.new.items ≡ map into members.now ++ reverse todo.old.items) }
{
    for index in 0..members.len() {
        todo.push(Move {
            on: None,
            to: members[members.len() - 1 - index],
            inner: None,
            particle: None,
        })?;
    }
    Ok(())
}

/// Puts the steps of a state before those to do.
fn come_to(todo: &mut Vec<Move>, states: &[Items<Move>], state: u32) -> Result<(), AllocError>
    ensures { OnOk result (reverse todo.new.items ≡ moves_at states.now state ++ reverse todo.old.items) }
{
    if let Some(moves) = states.get(state as usize) {
        let moves = moves.as_slice();
        for index in 0..moves.len() {
            todo.push(moves[moves.len() - 1 - index])?;
        }
    }
    Ok(())
}

/// What is read next from the states of a list: the steps that read something, of these states and of those behind steps that
/// read nothing, depth first. Each state is come to once.
///
/// # Errors
///
/// `AllocError` where memory is refused.
pub(crate) fn readings_from(
    alloc: Global,
    states: &[Items<Move>],
    members: &[u32],
    seen: &mut Marks,
) -> Result<Vec<Reading>, AllocError>
    ensures { IfOk result (λ v. v.items ≡ readings_from states.now members.now) }
{
    let mut readings = Vec::new(alloc);
    let mut todo = Vec::new(alloc);
    seen.clear();
    begin(&mut todo, members)?;
    while let Some(next) = todo.pop() {
        match next.on {
            Some(on) => readings.push(Reading {
                on,
                to: next.to,
                inner: next.inner,
                particle: next.particle,
            })?,
            None => {
                if !seen.has(next.to) {
                    seen.put(next.to)?;
                    come_to(&mut todo, states, next.to)?;
                }
            }
        }
    }
    Ok(readings)
}
