//! Which declaration opens the grammar of each.

ghost use Rattle.std.specs.Prelude.{◌≡◌, ◌<◌, ◌^◌, IfOk, length};
ghost use Rattle.std.specs.Map.{lookup};
ghost use Rattle.exi_elements.specs.Members.{AreOpeners};
ghost use Rattle.exi_elements.specs.Openings.{IsOpening, or_place, same_opening};

use exi_names::Txt;
use indexmap::IndexMap;
use std::alloc::{AllocError, Global};
use xsd_model::{Components, ElementDecl};

/// What declarations have alike that open one grammar.
#[derive(Clone, Copy, Debug, PartialEq, Eq, Hash)]
pub(crate) struct Opening<'a> {
    local: &'a Txt,
    uri: &'a Txt,
    of: u32,
    nillable: bool,
}

/// What this one has.
fn opening_of(element: &ElementDecl) -> Opening<'_>
    ensures { IsOpening result element.now }
{
    Opening {
        local: &element.name.local,
        uri: &element.name.uri,
        of: element.of,
        nillable: element.nillable,
    }
}

/// The place that is kept for what a declaration has, or else its own.
fn first_of(firsts: &IndexMap<Opening<'_>, u32>, opening: Opening<'_>, place: u32) -> u32
    ensures { result ≡ or_place place (lookup (same_opening opening.entry) firsts.now.entries) }
{
    match firsts.get(&opening) {
        Some(first) => *first,
        None => place,
    }
}

/// The place of the first declaration that opens the grammar of each.
pub(crate) fn openers_of(alloc: Global, parts: &Components) -> Result<Vec<u32>, AllocError>
    requires few { length parts.now.elements < 2 ^ 32 }
    ensures { IfOk result (λ v. AreOpeners parts.now v.items) }
{
    let elements = parts.elements();
    let mut firsts = IndexMap::new(alloc);
    let mut openers = Vec::new(alloc);
    for place in 0..elements.len() {
        let opening = opening_of(&elements[place]);
        let first = first_of(&firsts, opening, place as u32);
        openers.push(first)?;
        firsts.insert(opening, first)?;
    }
    Ok(openers)
}
