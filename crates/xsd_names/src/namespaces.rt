//! What prefixes stand for.

ghost use Rattle.std.specs.Prelude.{◌≡◌, IfOk, option_copied, slice_get};
ghost use Rattle.std.specs.Str.{chars};
ghost use Rattle.xsd_nodes.specs.Nodes.{outwards};
ghost use Rattle.xsd_names.specs.Names.{or_no_namespace, scope_in, uri_along, uri_in, uri_of};

use exi_names::Txt;
use std::alloc::{AllocError, Global};
use xsd_nodes::{is_text, parent_at};
use xsd_tree::Node;

/// The namespace of the prefix `xml`.
const XML: &str = "http://www.w3.org/XML/1998/namespace";

/// The namespace that the first of these declares for the prefix.
fn uri_in<'a>(prefix: &Txt, scope: &'a [(Txt, Txt)]) -> Option<&'a Txt>
    ensures { option_copied result ≡ uri_in prefix.now scope.now }
{
    for declared in scope {
        if declared.0.same(prefix) {
            return Some(&declared.1);
        }
    }
    None
}

/// The namespace that the element at a place declares for the prefix.
fn scope_in<'a>(prefix: &Txt, nodes: &'a [Node], place: u32) -> Option<&'a Txt>
    ensures { option_copied result ≡ scope_in prefix.now (slice_get nodes.now place) }
{
    match nodes.get(place as usize) {
        Some(node) => uri_in(prefix, node.scope.as_slice()),
        None => None,
    }
}

/// The namespace that the innermost element declares for the prefix, of the one at a place and those around it.
fn uri_along<'a>(prefix: &Txt, nodes: &'a [Node], place: u32) -> Option<&'a Txt>
    ensures { option_copied result ≡ uri_along prefix.now nodes.now (outwards nodes.now place) }
{
    let mut around = Some(place);
    for _ in 0..nodes.len() {
        match around {
            Some(at) => {
                if let Some(uri) = scope_in(prefix, nodes, at) {
                    return Some(uri);
                }
                around = parent_at(nodes, at);
            }
            None => return None,
        }
    }
    None
}

/// The empty namespace, for no prefix at all.
fn no_namespace(alloc: Global, prefix: &Txt) -> Option<Txt>
    ensures { result ≡ or_no_namespace prefix.now None }
{
    if is_text(prefix, "") {
        Some(Txt::new(alloc))
    } else {
        None
    }
}

/// The namespace of the prefix in the element at a place.
///
/// # Errors
///
/// `AllocError` where memory is refused.
pub fn uri_of(
    alloc: Global,
    nodes: &[Node],
    place: u32,
    prefix: &Txt,
) -> Result<Option<Txt>, AllocError>
    ensures { IfOk result (λ u. u ≡ uri_of nodes.now place prefix.now) }
{
    if is_text(prefix, "xml") {
        return Ok(Some(Txt::of(alloc, XML)?));
    }
    match uri_along(prefix, nodes, place) {
        Some(uri) => Ok(Some(uri.copy()?)),
        None => Ok(no_namespace(alloc, prefix)),
    }
}
