//! How far types are from the end of their bases, which are gone through anew for each type and element.

use crate::casts::base_of;
use crate::making::type_of;
use crate::order::Item;
use xsd_model::{Components, TypeDef};

/// The most bases that types and elements have together, so that going through them ends soon.
const MOST_BASES: u32 = 16_777_216;

/// How many are left of so many once the bases of a type are gone through, from the first one on.
fn left_behind(types: &[TypeDef], first: Option<u32>, most: u32) -> Option<u32> {
    let mut up = first;
    let mut left = most;
    for _ in 0..types.len() {
        let Some(place) = up else {
            return Some(left);
        };
        left = left.checked_sub(1)?;
        up = base_of(types, place);
    }
    Some(left)
}

/// Whether these types, and the types of these elements, have at most [`MOST_BASES`] bases together, each counted anew for each
/// of them.
pub(crate) fn are_few(parts: &Components, items: &[Item]) -> bool {
    let types = parts.types();
    let mut left = MOST_BASES;
    for item in items {
        match left_behind(types, base_of(types, type_of(parts, *item)), left) {
            Some(fewer) => left = fewer,
            None => return false,
        }
    }
    true
}
