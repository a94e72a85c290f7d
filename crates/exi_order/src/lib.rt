//! Names in order: by the local name, then by the URI, each by its characters (EXI 1.0, sections 7.3.1, 8.5.1 and 8.5.4).
//!
//! A list of names is put in order by the places of its names, which takes time near to its length:
//!
//! ```text
//! keys      ("b", "u")  ("a", "v")  ("a", "u")  ("b", "u")
//! places     0           1           2           3
//! in order   2           1           0           3
//! ```
#![tactic(auto)]

ghost use Rattle.std.specs.Prelude.{◌≡◌, ◌<◌, ◌^◌, IfOk, encode_utf8_all, length};
ghost use Rattle.std.specs.Ordering.{is_lt};
ghost use Rattle.exi_gram.specs.Laws.{places_from};
ghost use Rattle.exi_order.specs.Keys.{keys_of};
ghost use Rattle.exi_order.specs.Sorting.{key_at, place_before, places_in_order as in_their_order};

use exi_names::Txt;
use std::alloc::{AllocError, Global};
use std::cmp::Ordering;

/// What a thing is sorted by: a text, and another where the first is alike. For a name these are the
/// local name and the URI.
#[derive(Clone, Copy, Debug)]
pub struct Key<'a> {
    pub first: &'a Txt,
    pub second: &'a Txt,
}

/// The places of the keys in the order of the keys; keys that are alike keep their order.
///
/// # Errors
///
/// `AllocError` where memory is refused.
pub fn places_in_order(alloc: Global, keys: &[Key<'_>]) -> Result<Vec<u32>, AllocError>
    requires few { length keys.now < 2 ^ 32 }
    ensures { IfOk result (λ places. places.items ≡ in_their_order (keys_of keys.now)) }
{
    let mut places = places(alloc, keys)?;
    places.sort_by(|a, b| order_at(keys, *a, *b))?;
    Ok(places)
}

/// The places of the keys as they stand.
fn places(alloc: Global, keys: &[Key<'_>]) -> Result<Vec<u32>, AllocError>
    requires few { length keys.now < 2 ^ 32 }
    ensures { IfOk result (λ places. places.items ≡ places_from 0 (keys_of keys.now)) }
{
    let mut places = Vec::with_capacity(alloc, keys.len())?;
    for place in 0..keys.len() {
        places.push(place as u32)?;
    }
    Ok(places)
}

/// How the keys at two places stand to each other.
fn order_at(keys: &[Key<'_>], a: u32, b: u32) -> Ordering
    ensures { is_lt result ≡ place_before (keys_of keys.now) a b }
{
    let (first, second) = texts_at(keys, a);
    let (other_first, other_second) = texts_at(keys, b);
    match first.cmp(other_first) {
        Ordering::Equal => second.cmp(other_second),
        order => order,
    }
}

/// The two texts of the key at a place; none has any where there is no key.
fn texts_at<'a>(keys: &'a [Key<'_>], place: u32) -> (&'a str, &'a str)
    ensures first { result.0.now ≡ encode_utf8_all (key_at (keys_of keys.now) place).0 }
    ensures second { result.1.now ≡ encode_utf8_all (key_at (keys_of keys.now) place).1 }
{
    match keys.get(place as usize) {
        Some(key) => (key.first.as_str(), key.second.as_str()),
        None => ("", ""),
    }
}
