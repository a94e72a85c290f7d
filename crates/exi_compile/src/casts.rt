//! Which types `xsi:type` can put another in the place of.

ghost use Rattle.std.specs.Prelude.{◌≡◌, false, IfOk, length};
ghost use Rattle.exi_compiled.specs.Compiled.{can_be_cast, is_union};
ghost use Rattle.exi_compile.specs.Casts.{all_marked, base_of, marked_up, or_unions};
ghost use Rattle.exi_compile.specs.Tables.{Tells};

use std::alloc::{AllocError, Global};
use xsd_model::{Components, TypeBody, TypeDef};

/// The base of the type at a place.
pub(crate) fn base_of(types: &[TypeDef], place: u32) -> Option<u32>
    ensures { result ≡ base_of types.now place }
{
    match types.get(place as usize) {
        Some(of) => of.base,
        None => None,
    }
}

/// Marks the types from one on up along the bases, as far as one that is marked.
fn mark_up(types: &[TypeDef], marks: &mut [bool], first: Option<u32>)
    ensures { marks.new ≡ marked_up (length types.now) types.now first marks.old }
{
    let mut up = first;
    for _ in 0..types.len() {
        let Some(place) = up else { return };
        let index = place as usize;
        if index >= marks.len() || marks[index] {
            return;
        }
        marks[index] = true;
        up = base_of(types, place);
    }
}

/// Marks the bases of all types that have a name.
fn mark_all(types: &[TypeDef], marks: &mut [bool])
    ensures { marks.new ≡ all_marked (length types.now) types.now types.now marks.old }
{
    for of in types {
        if of.name.is_some() {
            mark_up(types, marks, of.base);
        }
    }
}

/// Whether a type is a union.
fn is_union(of: &TypeDef) -> bool
    ensures { result ≡ is_union of.now }
{
    match &of.body {
        TypeBody::Simple { form: _, union } => *union,
        TypeBody::Complex(_) => false,
        TypeBody::Ur => false,
    }
}

/// Marks those that are unions too.
fn mark_unions(types: &[TypeDef], marks: &mut [bool])
    requires same { length marks.old ≡ length types.now }
    ensures { marks.new ≡ or_unions types.now marks.old }
{
    for (place, of) in types.iter().enumerate() {
        if is_union(of) {
            marks[place] = true;
        }
    }
}

/// Of each type whether `xsi:type` can put another in its place: it has named sub-types, or is a union.
pub(crate) fn casts(alloc: Global, parts: &Components) -> Result<Vec<bool>, AllocError>
    ensures { IfOk result (λ casts. Tells false (can_be_cast parts.now) (length parts.now.types) casts.items) }
{
    let types = parts.types();
    let mut casts = vec![in alloc; false; types.len()]?;
    mark_all(types, casts.as_mut_slice());
    mark_unions(types, casts.as_mut_slice());
    Ok(casts)
}
