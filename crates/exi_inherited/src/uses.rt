//! The attributes of a type with those that it has of its bases.

ghost use Rattle.std.specs.Prelude.{◌≡◌, ◌<◌, [], All, IfOk, get_or, length, map};
ghost use Rattle.exi_gram.specs.Orders.{in_order};
ghost use Rattle.exi_order.specs.Keys.{key_of, keys_of};
ghost use Rattle.exi_inherited.specs.declared.uses.Use.{Use};
ghost use Rattle.exi_inherited.specs.Bases.{own_uses};
ghost use Rattle.exi_inherited.specs.Told.{told_with_all, use_pair};
ghost use Rattle.exi_inherited.specs.Uses.{attribute_pair, said_in, use_before, uses_of};

use crate::content::complex_base;
use crate::groups::Walk;
use crate::told::Told;
use exi_gram::Items;
use exi_names::Txt;
use exi_order::{Key, places_in_order};
use std::alloc::{AllocError, Global};
use xsd_model::{AttributeUse, Components, TypeBody};

/// An attribute that may stand.
#[derive(Clone, Copy, Debug, PartialEq, Eq)]
pub struct Use {
    /// The place of the attribute.
    pub attribute: u32,
    /// Whether it has to stand.
    pub required: bool,
}

/// What the type at a place says of attributes itself.
fn own_uses(parts: &Components, place: u32) -> &[AttributeUse]
    ensures { result.now ≡ own_uses parts.now place }
{
    match parts.types().get(place as usize) {
        Some(of) => match &of.body {
            TypeBody::Simple { form: _, union: _ } => &[],
            TypeBody::Complex(complex) => complex.uses.as_slice(),
            TypeBody::Ur => &[],
        },
        None => &[],
    }
}

/// What the type at a place and its bases say, told from the end of it to its front.
fn told_of(alloc: Global, parts: &Components, of: u32) -> Result<Told, AllocError>
    ensures { IfOk result (λ told. told ≡ told_with_all (said_in parts.now of) []) }
{
    let mut walk = Walk::new(alloc);
    let mut next = Some(of);
    // A type has fewer bases than there are types.
    let most = parts.types().len() + 1;
    for _step in 0..most {
        match next {
            Some(place) => {
                walk.walk_all(alloc, parts, own_uses(parts, place))?;
                next = complex_base(parts, place);
            }
            None => return Ok(walk.told),
        }
    }
    Ok(walk.told)
}

/// What the attribute at a place is sorted by: its local name, and then its URI.
fn key_at<'a>(parts: &'a Components, none: &'a Txt, place: u32) -> Key<'a>
    requires none { none.now ≡ [] }
    ensures { key_of result ≡ attribute_pair parts.now place }
{
    match parts.attributes().get(place as usize) {
        Some(attribute) => Key {
            first: &attribute.name.local,
            second: &attribute.name.uri,
        },
        None => Key {
            first: none,
            second: none,
        },
    }
}

/// What uses are sorted by.
fn keys_of<'a>(
    alloc: Global,
    parts: &'a Components,
    none: &'a Txt,
    uses: &[Use],
) -> Result<Vec<Key<'a>>, AllocError>
    requires none { none.now ≡ [] }
    ensures { IfOk result (λ keys. keys_of keys.items ≡ map (use_pair parts.now) uses.now) }
{
    let mut keys = Vec::new(alloc);
    for used in uses {
        keys.push(key_at(parts, none, used.attribute))?;
    }
    Ok(keys)
}

/// The use at a place.
fn use_at(uses: &[Use], place: u32) -> Use
    requires within { place < length uses.now }
    ensures { (other : Use) → result ≡ get_or uses.now place other }
{
    uses[place as usize]
}

/// The uses at these places.
fn picked(alloc: Global, uses: &[Use], places: &[u32]) -> Result<Items<Use>, AllocError>
    requires within { All (λ place. place < length uses.now) places.now }
    ensures { IfOk result (λ us. (other : Use) → us ≡ map (λ place. get_or uses.now place other) places.now) }
{
    let mut picked = Items::new(alloc);
    for place in places {
        picked.push(use_at(uses, *place))?;
    }
    Ok(picked)
}

/// Uses in the order of their names.
fn in_order(alloc: Global, parts: &Components, uses: &[Use]) -> Result<Items<Use>, AllocError>
    ensures { IfOk result (λ us. us ≡ in_order (use_before parts.now) uses.now) }
{
    if uses.len() > u32::MAX as usize {
        return Err(AllocError);
    }
    let none = Txt::new(alloc);
    let keys = keys_of(alloc, parts, &none, uses)?;
    let places = places_in_order(alloc, keys.as_slice())?;
    let picked = picked(alloc, uses, places.as_slice())?;
    Ok(picked)
}

/// The attributes of the type at a place with those that it has of its bases (XML Schema 1.0 Part 1, section 3.4.2), in the
/// order of their names (EXI 1.0, section 8.5.4.1.3.2). Takes time in proportion to what the type, its bases and the groups that
/// they name say, each once, and to the sorting of the names.
///
/// # Errors
///
/// `AllocError` where memory is refused.
pub fn uses_of(alloc: Global, parts: &Components, of: u32) -> Result<Items<Use>, AllocError>
    ensures { IfOk result (λ us. us ≡ uses_of parts.now of) }
{
    let told = told_of(alloc, parts, of)?;
    let uses = told.uses(alloc)?;
    let ordered = in_order(alloc, parts, uses.as_slice())?;
    Ok(ordered)
}
