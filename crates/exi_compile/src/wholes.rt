//! The grammars of whole streams (EXI 1.0, sections 8.5.1 and 8.5.2).

ghost use Rattle.std.specs.Prelude.{◌≡◌, ◌++◌, [], ◌∷◌, IfOk, OnOk, map};
ghost use Rattle.exi_gram.specs.Terminals.{rule, rules_of};
ghost use Rattle.exi_gram.specs.Wholes.{document, document_content, document_end, fragment, fragment_content, listed, opening, whole_grammar, whole_start};
ghost use Rattle.exi_compile.specs.Entries.{opened_as};

use crate::production::{opening, plain};
use exi_gram::{ElementEntry, Grammar, Items, Production, Terminal};
use exi_names::QName;
use std::alloc::{AllocError, Global};

/// The first state.
fn start(alloc: Global) -> Result<Items<Production>, AllocError>
    ensures { IfOk result (λ state. map rule state ≡ listed whole_start) }
{
    let mut state = Items::new(alloc);
    state.push(plain(Terminal::Sd, 1))?;
    Ok(state)
}

/// Adds SE of each of these elements.
fn push_globals(
    state: &mut Items<Production>,
    to: u32,
    elements: &[ElementEntry],
) -> Result<(), AllocError>
    ensures { OnOk result (map rule state.new
        ≡ map rule state.old ++ map (opening to) (map opened_as elements.now)) }
{
    for element in elements {
        state.push(opening(to, &element.name, element.full)?)?;
    }
    Ok(())
}

/// Adds SE of each of these names.
pub(crate) fn push_named(
    state: &mut Items<Production>,
    to: u32,
    elements: &[(QName, u32)],
) -> Result<(), AllocError>
    ensures { OnOk result (map rule state.new ≡ map rule state.old ++ map (opening to) elements.now) }
{
    for element in elements {
        state.push(opening(to, &element.0, element.1)?)?;
    }
    Ok(())
}

/// The state in which the root is to come.
fn content(alloc: Global, globals: &[ElementEntry]) -> Result<Items<Production>, AllocError>
    ensures { IfOk result (λ state. map rule state ≡ listed (document_content (map opened_as globals.now))) }
{
    let mut state = Items::new(alloc);
    push_globals(&mut state, 2, globals)?;
    state.push(plain(Terminal::SeAny, 2))?;
    state.push(plain(Terminal::Dt, 1))?;
    state.push(plain(Terminal::Cm, 1))?;
    state.push(plain(Terminal::Pi, 1))?;
    Ok(state)
}

/// The state behind the root.
fn end(alloc: Global) -> Result<Items<Production>, AllocError>
    ensures { IfOk result (λ state. map rule state ≡ listed document_end) }
{
    let mut state = Items::new(alloc);
    state.push(plain(Terminal::Ed, 2))?;
    state.push(plain(Terminal::Cm, 2))?;
    state.push(plain(Terminal::Pi, 2))?;
    Ok(state)
}

/// The grammar of documents: the root is a global element, or any.
pub(crate) fn document(alloc: Global, globals: &[ElementEntry]) -> Result<Grammar, AllocError>
    ensures { IfOk result (λ g. rules_of g ≡ whole_grammar (document (map opened_as globals.now))) }
{
    let mut states = Items::new(alloc);
    states.push(start(alloc)?)?;
    states.push(content(alloc, globals)?)?;
    states.push(end(alloc)?)?;
    Ok(Grammar { states, content: 0 })
}

/// The state of a fragment's elements.
fn elements(alloc: Global, named: &[(QName, u32)]) -> Result<Items<Production>, AllocError>
    ensures { IfOk result (λ state. map rule state ≡ listed (fragment_content named.now)) }
{
    let mut state = Items::new(alloc);
    push_named(&mut state, 1, named)?;
    state.push(plain(Terminal::SeAny, 1))?;
    state.push(plain(Terminal::Ed, 1))?;
    state.push(plain(Terminal::Cm, 1))?;
    state.push(plain(Terminal::Pi, 1))?;
    Ok(state)
}

/// The grammar of fragments: any number of elements, of the names declared anywhere, or any.
pub(crate) fn fragment(alloc: Global, named: &[(QName, u32)]) -> Result<Grammar, AllocError>
    ensures { IfOk result (λ g. rules_of g ≡ whole_grammar (fragment named.now)) }
{
    let mut states = Items::new(alloc);
    states.push(start(alloc)?)?;
    states.push(elements(alloc, named)?)?;
    Ok(Grammar { states, content: 0 })
}
