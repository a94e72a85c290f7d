//! The built-in types.

ghost use Rattle.std.specs.Prelude.{◌≡◌, false, None, All, IfOk, length, map};
ghost use Rattle.std.specs.Str.{chars};
ghost use Rattle.xsd_simple.specs.Simple.{built_in_simple, form_of};
ghost use Rattle.xsd_tree.specs.Trees.{xsd};
ghost use Rattle.xsd_schema.specs.Seen.{body_seen, simple, type_seen};
ghost use Rattle.xsd_schema.specs.Types.{HasForm, HasFormIn, built_in_body, built_in_type, built_in_types};

use exi_gram::Items;
use exi_names::{QName, Txt};
use std::alloc::{AllocError, Global};
use xsd_builtins::{ANY_TYPE, base_of, names};
use xsd_components::TypeAt;
use xsd_model::{TypeBody, TypeDef};
use xsd_simple::Simples;

/// The namespace of XML Schema.
const XSD: &str = "http://www.w3.org/2001/XMLSchema";

/// What the simple built-in type at a place is.
fn simple_built_in(simples: &Simples<'_>, place: u32) -> TypeBody
    ensures seen { body_seen simples.now.forms result ≡ simple (form_of (built_in_simple place)) false }
    ensures form { HasForm (length simples.now.forms) result }
{
    TypeBody::Simple {
        form: simples.form(TypeAt::Built(place)),
        union: false,
    }
}

/// What the built-in type at a place is.
fn built_in_body(simples: &Simples<'_>, place: u32) -> TypeBody
    ensures seen { body_seen simples.now.forms result ≡ built_in_body place }
    ensures form { HasForm (length simples.now.forms) result }
{
    if place == ANY_TYPE {
        TypeBody::Ur
    } else {
        simple_built_in(simples, place)
    }
}

/// A name of XML Schema.
fn xsd_name(alloc: Global, word: &str) -> Result<QName, AllocError>
    ensures { IfOk result (λ n. n ≡ record { uri = xsd; local = chars word.now; prefix = None }) }
{
    Ok(QName {
        uri: Txt::of(alloc, XSD)?,
        local: Txt::of(alloc, word)?,
        prefix: None,
    })
}

/// The built-in type of this place and name.
fn built_in_type(
    alloc: Global,
    simples: &Simples<'_>,
    place: u32,
    word: &str,
) -> Result<TypeDef, AllocError>
    ensures seen { IfOk result (λ t. type_seen simples.now.forms t ≡ built_in_type place (chars word.now)) }
    ensures form { IfOk result (HasFormIn (length simples.now.forms)) }
{
    Ok(TypeDef {
        name: Some(xsd_name(alloc, word)?),
        base: base_of(place),
        body: built_in_body(simples, place),
        event: 0,
    })
}

/// The built-in types, in order.
///
/// # Errors
///
/// `AllocError` where memory is refused.
pub fn built_in_types(alloc: Global, simples: &Simples<'_>) -> Result<Items<TypeDef>, AllocError>
    ensures types { IfOk result (λ l. map (type_seen simples.now.forms) l ≡ built_in_types) }
    ensures forms { IfOk result (All (HasFormIn (length simples.now.forms))) }
{
    let words = names();
    let mut types = Items::new(alloc);
    for (place, word) in words.iter().enumerate() {
        types.push(built_in_type(alloc, simples, place as u32, word)?)?;
    }
    Ok(types)
}
