//! Where the grammars of elements stand.

ghost use Rattle.std.specs.Prelude.{◌≡◌, ◌≤◌, ◌^◌, IfOk, length};
ghost use Rattle.exi_compiled.specs.Compiled.{element_grammar, items_of};
ghost use Rattle.exi_compile.specs.Order.{element_places_from};
ghost use Rattle.exi_compile.specs.Tables.{Tells};

use exi_elements::Elements;
use std::alloc::{AllocError, Global};

/// Where the grammar stands that each element opens: elements that open one grammar open that of the first of them.
pub(crate) fn element_grammars(
    alloc: Global,
    elements: &Elements<'_>,
    places: &[u32],
) -> Result<Vec<u32>, AllocError>
    requires places { places.now ≡ element_places_from 2 (items_of elements.now) }
    requires few { length elements.now.elements ≤ 2 ^ 28 }
    requires long { length places.now ≡ length elements.now.elements }
    ensures { IfOk result (λ grammars. Tells 0 (element_grammar elements.now) (length elements.now.elements) grammars.items) }
{
    let mut grammars = Vec::new(alloc);
    for place in 0..places.len() {
        let opener = elements.opener(place as u32);
        grammars.push(places[opener as usize])?;
    }
    Ok(grammars)
}
