//! The calls of a line of string tables.

use exi_cases::fields::text_of;
use exi_names::{NameId, Txt};
use std::alloc::{AllocError, Global};

/// A partition of the string tables.
#[derive(Clone, Copy)]
pub enum Partition {
    /// The URIs.
    Uris,
    /// The local names of a URI.
    Locals(u32),
    /// The prefixes of a URI.
    Prefixes(u32),
    /// The values of all names.
    Values,
    /// The values of one name.
    Own(NameId),
}

/// A call on a partition.
#[derive(Drop)]
pub enum Call {
    /// What it has there.
    Look(Partition, Look),
    /// The least place of a text.
    Find(Partition, Txt),
    /// A text is added.
    Add(Partition, Txt),
}

/// A look-up that names no text.
#[derive(Clone, Copy)]
pub enum Look {
    /// How many places there are.
    Count,
    /// The text at a place.
    At(u32),
    /// The least place of the text at a place.
    Least(u32),
}

/// What is asked of a partition: what a call's word says, without its places and texts.
#[derive(Clone, Copy)]
enum Asked {
    Count,
    At,
    /// The count, or with a place the text there.
    Either,
    Least,
    Of,
    Add,
}

/// A kind of partition.
#[derive(Clone, Copy)]
enum Kind {
    Uri,
    Local,
    Prefix,
    Value,
    Own,
}

/// The call that is written so, and nothing where none is.
pub fn call_of(alloc: Global, text: &str) -> Result<Option<Call>, AllocError> {
    let mut parts = Vec::new(alloc);
    for part in text.split(':') {
        parts.push(part)?;
    }
    match parts.as_slice() {
        [word, operands @ ..] => call_by(alloc, word, operands),
        [] => Ok(None),
    }
}

/// The call by its word and what stands behind it.
fn call_by(alloc: Global, word: &str, operands: &[&str]) -> Result<Option<Call>, AllocError> {
    let (Some(asked), Some(kind)) = (asked_by(word), kind_by(word)) else {
        return Ok(None);
    };
    match (kind, operands) {
        (Kind::Uri, rest) => call_on(alloc, asked, Some(Partition::Uris), rest),
        (Kind::Value, rest) => call_on(alloc, asked, Some(Partition::Values), rest),
        (Kind::Local, [uri, rest @ ..]) => call_on(alloc, asked, locals(uri), rest),
        (Kind::Prefix, [uri, rest @ ..]) => call_on(alloc, asked, prefixes(uri), rest),
        (Kind::Own, [uri, local, rest @ ..]) => call_on(alloc, asked, own(uri, local), rest),
        _ => Ok(None),
    }
}

/// What a word asks.
fn asked_by(word: &str) -> Option<Asked> {
    match word {
        "uris" | "locals" | "prefixes" | "values" => Some(Asked::Count),
        "uri" | "local" | "prefix" | "value" => Some(Asked::At),
        "own" => Some(Asked::Either),
        "least_uri" | "least_local" => Some(Asked::Least),
        "uri_of" | "local_of" | "prefix_of" | "value_of" | "own_of" => Some(Asked::Of),
        "add_uri" | "add_local" | "add_prefix" | "add_value" => Some(Asked::Add),
        _ => None,
    }
}

/// Of which kind of partition a word asks it.
fn kind_by(word: &str) -> Option<Kind> {
    match word {
        "uris" | "uri" | "least_uri" | "uri_of" | "add_uri" => Some(Kind::Uri),
        "locals" | "local" | "least_local" | "local_of" | "add_local" => Some(Kind::Local),
        "prefixes" | "prefix" | "prefix_of" | "add_prefix" => Some(Kind::Prefix),
        "values" | "value" | "value_of" => Some(Kind::Value),
        "own" | "own_of" | "add_value" => Some(Kind::Own),
        _ => None,
    }
}

fn locals(uri: &str) -> Option<Partition> {
    Some(Partition::Locals(uri.parse::<u32>().ok()?))
}

fn prefixes(uri: &str) -> Option<Partition> {
    Some(Partition::Prefixes(uri.parse::<u32>().ok()?))
}

fn own(uri: &str, local: &str) -> Option<Partition> {
    let uri = uri.parse::<u32>().ok()?;
    let local = local.parse::<u32>().ok()?;
    Some(Partition::Own(NameId { uri, local }))
}

/// The call on a partition, with the place or the text that is last.
fn call_on(
    alloc: Global,
    asked: Asked,
    partition: Option<Partition>,
    last: &[&str],
) -> Result<Option<Call>, AllocError> {
    let Some(partition) = partition else {
        return Ok(None);
    };
    match last {
        [] => Ok(without(asked, partition)),
        [last] => with(alloc, asked, partition, last),
        _ => Ok(None),
    }
}

/// A call that says no more than its partition.
fn without(asked: Asked, partition: Partition) -> Option<Call> {
    match asked {
        Asked::Count | Asked::Either => Some(Call::Look(partition, Look::Count)),
        Asked::At | Asked::Least | Asked::Of | Asked::Add => None,
    }
}

/// A call that says a place or a text.
fn with(
    alloc: Global,
    asked: Asked,
    partition: Partition,
    last: &str,
) -> Result<Option<Call>, AllocError> {
    match asked {
        Asked::At | Asked::Either => Ok(at(partition, last)),
        Asked::Least => Ok(least(partition, last)),
        Asked::Of => find(alloc, partition, last),
        Asked::Add => add(alloc, partition, last),
        Asked::Count => Ok(None),
    }
}

fn at(partition: Partition, place: &str) -> Option<Call> {
    Some(Call::Look(partition, Look::At(place.parse::<u32>().ok()?)))
}

fn least(partition: Partition, place: &str) -> Option<Call> {
    Some(Call::Look(partition, Look::Least(place.parse::<u32>().ok()?)))
}

fn find(alloc: Global, partition: Partition, text: &str) -> Result<Option<Call>, AllocError> {
    match text_of(alloc, text)? {
        Some(text) => Ok(Some(Call::Find(partition, text))),
        None => Ok(None),
    }
}

fn add(alloc: Global, partition: Partition, text: &str) -> Result<Option<Call>, AllocError> {
    match text_of(alloc, text)? {
        Some(text) => Ok(Some(Call::Add(partition, text))),
        None => Ok(None),
    }
}
