//! What stands of each element and type before its grammars are made.

ghost use Rattle.std.specs.Prelude.{◌≡◌, ◌+◌, ◌<◌, ◌≤◌, ◌^◌, IfOk, get_or, length};
ghost use Rattle.exi_compile.specs.Whole.{AreTables};
ghost use Rattle.exi_vocabulary.specs.FirstNames.{IsOfSize};

use crate::bases::are_few;
use crate::casts::casts;
use crate::elements::element_grammars;
use crate::entries::named_elements;
use crate::order::{Item, element_places, in_document, type_places};
use exi_elements::Elements;
use exi_gram::Items;
use exi_names::QName;
use std::alloc::{AllocError, Global};

/// What stands of each element and type.
#[derive(Debug, Drop)]
pub(crate) struct Tables {
    /// Types and elements in the order of the document.
    pub(crate) items: Vec<Item>,
    /// Of each element where the grammar stands that it opens.
    pub(crate) grammars: Vec<u32>,
    /// Of each type where its grammar stands.
    pub(crate) types: Vec<u32>,
    /// Of each type whether another can be put in its place.
    pub(crate) casts: Vec<bool>,
    /// Where the grammar of a fragment's elements stands.
    pub(crate) otherwise: u32,
    /// The names of elements anywhere, each with the grammar that it opens.
    pub(crate) named: Items<(QName, u32)>,
}

impl Tables {
    /// Those of a schema's elements and types.
    pub(crate) fn of(alloc: Global, elements: &Elements<'_>) -> Result<Tables, AllocError>
        requires size { IsOfSize elements.now }
        ensures { IfOk result (AreTables elements.now) }
    {
        let parts = elements.parts();
        let items = in_document(alloc, parts.types(), parts.elements())?;
        let places = element_places(alloc, items.as_slice())?;
        let grammars = element_grammars(alloc, elements, places.as_slice())?;
        let types = type_places(alloc, items.as_slice())?;
        let casts = casts(alloc, parts)?;
        let otherwise = 2 + 2 * items.len() as u32;
        let named = named_elements(alloc, parts, grammars.as_slice(), otherwise)?;
        if !are_few(parts, items.as_slice()) {
            return Err(AllocError);
        }
        Ok(Tables {
            items,
            grammars,
            types,
            casts,
            otherwise,
            named,
        })
    }
}
