//! What the texts in a schema document name.

ghost use Rattle.std.specs.Prelude.{◌≡◌, IfOk};
ghost use Rattle.exi_lexical.specs.Spaces.{trimmed};
ghost use Rattle.xsd_names.specs.Names.{in_namespace, name_of, named, own_name, uri_of};

use crate::letters::{is_ncname, letters_of, split_at_mark, text_of, trim};
use crate::namespaces::uri_of;
use exi_names::{QName, Txt};
use std::alloc::{AllocError, Global};
use xsd_nodes::{AttributeName, target, text_at};
use xsd_tree::Node;

/// The name of these letters in the namespace of a prefix, where that is declared.
fn in_namespace(
    alloc: Global,
    nodes: &[Node],
    place: u32,
    prefix: &[char],
    local: &[char],
) -> Result<Option<QName>, AllocError>
    ensures { IfOk result (λ n. n ≡ in_namespace local.now (uri_of nodes.now place prefix.now)) }
{
    let prefix = text_of(alloc, prefix)?;
    match uri_of(alloc, nodes, place, &prefix)? {
        Some(uri) => Ok(Some(QName {
            uri,
            local: text_of(alloc, local)?,
            prefix: None,
        })),
        None => Ok(None),
    }
}

/// The name that these letters are in the element at a place.
fn name_of(
    alloc: Global,
    nodes: &[Node],
    place: u32,
    whole: &[char],
) -> Result<Option<QName>, AllocError>
    ensures { IfOk result (λ n. n ≡ name_of nodes.now place whole.now) }
{
    let (prefix, behind) = split_at_mark(whole, ':');
    match behind {
        Some(local) => {
            if is_ncname(prefix) && is_ncname(local) {
                in_namespace(alloc, nodes, place, prefix, local)
            } else {
                Ok(None)
            }
        }
        None => {
            if is_ncname(whole) {
                in_namespace(alloc, nodes, place, &[], whole)
            } else {
                Ok(None)
            }
        }
    }
}

/// What the text names in the element at a place, white space at its ends dropped; nothing where it is no name, or where its
/// prefix is not declared.
///
/// # Errors
///
/// `AllocError` where memory is refused.
pub fn named(
    alloc: Global,
    nodes: &[Node],
    place: u32,
    text: &Txt,
) -> Result<Option<QName>, AllocError>
    ensures { IfOk result (λ n. n ≡ named nodes.now place text.now) }
{
    let letters = letters_of(alloc, text)?;
    name_of(alloc, nodes, place, trim(letters.as_slice()))
}

/// The text without the white space at either end.
fn trimmed(alloc: Global, text: &Txt) -> Result<Txt, AllocError>
    ensures { IfOk result (λ t. t ≡ trimmed text.now) }
{
    let letters = letters_of(alloc, text)?;
    text_of(alloc, trim(letters.as_slice()))
}

/// The name that the element at a place has as a component, of the target namespace of its schema; nothing where it has no
/// attribute `name`.
///
/// # Errors
///
/// `AllocError` where memory is refused.
pub fn own_name(alloc: Global, nodes: &[Node], place: u32) -> Result<Option<QName>, AllocError>
    ensures { IfOk result (λ n. n ≡ own_name nodes.now place) }
{
    match text_at(nodes, AttributeName::Name, place) {
        Some(name) => Ok(Some(QName {
            uri: Txt::of(alloc, target(nodes, place))?,
            local: trimmed(alloc, name)?,
            prefix: None,
        })),
        None => Ok(None),
    }
}
