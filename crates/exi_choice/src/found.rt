ghost use Rattle.std.specs.Prelude.{◌≡◌, ◌≤◌, IfOk, length, map};
ghost use Rattle.exi_gram.specs.Books.{IsStateOf, state_at};
ghost use Rattle.exi_gram.specs.Codes.{coded};
ghost use Rattle.exi_gram.specs.Tables.{coded_of, most_productions};
ghost use Rattle.exi_builtin.specs.Learning.{IsRoom, Learning};
ghost use Rattle.exi_processing.specs.Configurations.{Setting, built_in, in_book};
ghost use Rattle.exi_processing.specs.Rules.{fragment_start};
ghost use Rattle.exi_choice.specs.Choices.{Finds, FindsFirst, Keeps, Takes, wanting};

use crate::choice::{Choice, Way, choose_built_in, choose_start, is_for};
use crate::fit::{Fit, fit_on};
use crate::sought::sought_for;
use crate::wanted::Wanted;
use exi_builtin::{Overlay, Room};
use exi_candidates::next_candidate;
use exi_gram::{Book, Coded};
use exi_processing::Rule;
use std::alloc::{AllocError, Global};

/// A production that was found for an event.
#[derive(Drop)]
pub struct Found<'a> {
    /// The production, and how its code is written.
    pub choice: Choice<'a>,
    /// What is written of the event's value.
    pub value: Fit,
}

/// What is written of an event's value under a production that stands for the event; nothing where it stands for another,
/// or where the value has no spelling in it.
///
/// # Errors
///
/// `AllocError` where memory is refused.
#[inline(always)]
fn fit_at(
    alloc: Global,
    book: &Book,
    coded: &Coded,
    wanted: Wanted<'_>,
) -> Result<Option<Fit>, AllocError>
    ensures { IfOk result (λ f. Takes book.now.schema (wanting wanted.entry) (coded_of coded.now) f) }
{
    let rule = Rule::of_book(&coded.production, coded.named);
    if !is_for(wanted.on, rule.on) {
        return Ok(None);
    }
    fit_on(alloc, book, rule, wanted.valued)
}

/// The first production that stands for an event and in which its value has a spelling: its place, and what is written of
/// the value. The productions are gone through once.
///
/// # Errors
///
/// `AllocError` where memory is refused.
#[inline(always)]
fn first_of_all(
    alloc: Global,
    book: &Book,
    coded: &[Coded],
    wanted: Wanted<'_>,
) -> Result<Option<(u32, Fit)>, AllocError>
    requires few { length coded.now ≤ most_productions }
    ensures { IfOk result (λ found. FindsFirst book.now.schema (wanting wanted.entry) (map coded_of coded.now) found) }
{
    let mut first = None;
    // More than any code has.
    let mut fewest = 4;
    for (place, coded) in coded.iter().enumerate() {
        let parts = coded.code.parts();
        if parts < fewest {
            if let Some(value) = fit_at(alloc, book, coded, wanted)? {
                let found = Some((place as u32, value));
                if parts == 1 {
                    return Ok(found);
                }
                first = found;
                fewest = parts;
            }
        }
    }
    Ok(first)
}

/// The same, of those alone that are looked up for the event, one after another.
///
/// # Errors
///
/// `AllocError` where memory is refused.
#[inline(never)]
fn first_of_candidates(
    alloc: Global,
    book: &Book,
    grammar: u32,
    state: u32,
    wanted: Wanted<'_>,
) -> Result<Option<(u32, Fit)>, AllocError>
    requires exists { IsStateOf book.now grammar state }
    ensures { IfOk result (λ found. FindsFirst book.now.schema (wanting wanted.entry) (coded (state_at book.now grammar state)) found) }
{
    let schema = book.schema();
    let _ = schema.is_known();
    let coded = book.state(grammar, state).coded();
    let sought = sought_for(wanted.on);
    let mut after = None;
    while let Some(place) = next_candidate(book, grammar, state, sought, after) {
        if let Some(value) = fit_at(alloc, book, &coded[place as usize], wanted)? {
            return Ok(Some((place, value)));
        }
        after = Some(place);
    }
    Ok(None)
}

/// How many productions are looked at one by one before it is quicker to look them up.
const FEW: usize = 8;

/// The same, in the quicker way.
///
/// # Errors
///
/// `AllocError` where memory is refused.
#[inline(always)]
fn first_in(
    alloc: Global,
    book: &Book,
    grammar: u32,
    state: u32,
    wanted: Wanted<'_>,
) -> Result<Option<(u32, Fit)>, AllocError>
    requires exists { IsStateOf book.now grammar state }
    ensures { IfOk result (λ found. FindsFirst book.now.schema (wanting wanted.entry) (coded (state_at book.now grammar state)) found) }
{
    let coded = book.state(grammar, state).coded();
    if coded.len() <= FEW {
        first_of_all(alloc, book, coded, wanted)
    } else {
        first_of_candidates(alloc, book, grammar, state, wanted)
    }
}

/// The production of a state of the book that stands for an event and in which its value has a spelling.
///
/// # Errors
///
/// `AllocError` where memory is refused.
#[inline(always)]
pub fn find_in_book<'a>(
    alloc: Global,
    book: &'a Book,
    grammar: u32,
    state: u32,
    wanted: Wanted<'_>,
) -> Result<Option<Found<'a>>, AllocError>
    requires exists { IsStateOf book.now grammar state }
    ensures { IfOk result (λ found. (l : Learning) → Finds book.now l (wanting wanted.entry) (in_book book.now grammar state) found) }
{
    let Some((place, value)) = first_in(alloc, book, grammar, state, wanted)? else {
        return Ok(None);
    };
    let coded = book.state(grammar, state).coded();
    let coded = &coded[place as usize];
    let choice = Choice {
        rule: Rule::of_book(&coded.production, coded.named),
        way: Way::Book {
            grammar,
            state,
            place,
        },
    };
    Ok(Some(Found { choice, value }))
}

/// A production that stands for an event, where the event's value has a spelling in it.
///
/// # Errors
///
/// `AllocError` where memory is refused.
#[inline(always)]
fn find<'a>(
    alloc: Global,
    book: &Book,
    choice: Option<Choice<'a>>,
    wanted: Wanted<'_>,
) -> Result<Option<Found<'a>>, AllocError>
    ensures { IfOk result (λ found. Keeps book.now.schema (wanting wanted.entry) choice.entry found) }
{
    let Some(choice) = choice else {
        return Ok(None);
    };
    let Some(value) = fit_on(alloc, book, choice.rule, wanted.valued)? else {
        return Ok(None);
    };
    Ok(Some(Found { choice, value }))
}

/// The production of a built-in state that stands for an event, where the event's value has a spelling in it: in such a
/// state it has the same in each that stands for it.
///
/// # Errors
///
/// `AllocError` where memory is refused.
#[inline(always)]
pub fn find_built_in<'a>(
    alloc: Global,
    book: &'a Book,
    overlay: &Overlay,
    room: Room,
    wanted: Wanted<'_>,
) -> Result<Option<Found<'a>>, AllocError>
    requires room { IsRoom overlay.now room }
    ensures { IfOk result (λ found. Finds book.now overlay.now (wanting wanted.entry) (built_in book.now overlay.now room) found) }
{
    let choice = choose_built_in(book, overlay, room, wanted.on);
    find(alloc, book, choice, wanted)
}

/// The production of a fragment's start that stands for an event.
pub fn find_start<'a>(wanted: Wanted<'_>) -> Option<Found<'a>>
    ensures { (g : Setting) (l : Learning) → Finds g l (wanting wanted.entry) fragment_start result }
{
    match choose_start(wanted.on) {
        Some(choice) => Some(Found {
            choice,
            value: Fit::Own,
        }),
        None => None,
    }
}
