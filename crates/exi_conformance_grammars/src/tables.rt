//! The cases of string tables: a line of adds and look-ups, which the three kinds of tables answer.
//!
//! ```text
//! add_uri:TEXT    add_local:URI:TEXT    add_prefix:URI:TEXT    add_value:URI:LOCAL:TEXT
//! uris            locals:URI            prefixes:URI           values          own:URI:LOCAL
//! uri:PLACE       local:URI:PLACE       prefix:URI:PLACE       value:PLACE     own:URI:LOCAL:PLACE
//! uri_of:TEXT     local_of:URI:TEXT     prefix_of:URI:TEXT     value_of:TEXT   own_of:URI:LOCAL:TEXT
//! least_uri:PLACE least_local:URI:PLACE
//! ```
//!
//! A call is answered by a number, by the hex of a text, by `none`, or by `added`.

use crate::calls::{Call, Look, Partition, call_of};
use exi_cases::agree::agreed;
use exi_cases::fields::bound_of;
use exi_cases::show;
use exi_names::{NameId, StartNames, Txt};
use exi_tables::{FirstTables, HashTables, ListTables, PlaceTables, Tables, is_name};
use std::alloc::{AllocError, Global};

/// `tables MOST CAPACITY CALL ..`
pub fn answer(alloc: Global, fields: &[&str]) -> Result<Option<String>, AllocError> {
    let ["tables", most, capacity, calls @ ..] = fields else {
        return Ok(None);
    };
    match (bound_of(most), bound_of(capacity)) {
        (Some(most), Some(capacity)) => by_each_kind(alloc, most, capacity, calls),
        _ => Ok(None),
    }
}

/// The answer of the three kinds of tables.
fn by_each_kind(
    alloc: Global,
    most: Option<u128>,
    capacity: Option<u128>,
    calls: &[&str],
) -> Result<Option<String>, AllocError> {
    let mut answers = Vec::new(alloc);
    answers.push(answers_by::<ListTables>(alloc, most, capacity, calls)?)?;
    answers.push(answers_by::<HashTables>(alloc, most, capacity, calls)?)?;
    answers.push(answers_by::<PlaceTables>(alloc, most, capacity, calls)?)?;
    agreed(alloc, answers.as_slice())
}

/// The answers to the calls, on the first tables without a schema; nothing where a call is none.
fn answers_by<T: Tables + Drop>(
    alloc: Global,
    most: Option<u128>,
    capacity: Option<u128>,
    calls: &[&str],
) -> Result<Option<String>, AllocError> {
    let names = StartNames::without_schema(alloc)?;
    let first = FirstTables::of(alloc, &names)?;
    let mut tables = T::start(alloc, first, most, capacity);
    let mut all = String::new(alloc);
    match push_answers(alloc, &mut tables, calls, &mut all)? {
        Some(()) => Ok(Some(all)),
        None => Ok(None),
    }
}

/// The answers to the calls, one after another.
fn push_answers<T: Tables>(
    alloc: Global,
    tables: &mut T,
    calls: &[&str],
    all: &mut String,
) -> Result<Option<()>, AllocError> {
    all.push_str("tables")?;
    for call in calls {
        match answer_to(alloc, tables, call)? {
            Some(text) => push_word(all, text.as_str())?,
            None => return Ok(None),
        }
    }
    Ok(Some(()))
}

fn push_word(all: &mut String, word: &str) -> Result<(), AllocError> {
    all.push(' ')?;
    all.push_str(word)
}

/// The answer to one call, and nothing where it is none, or what it names is not there.
fn answer_to<T: Tables>(
    alloc: Global,
    tables: &mut T,
    call: &str,
) -> Result<Option<String>, AllocError> {
    match call_of(alloc, call)? {
        Some(Call::Add(partition, text)) => add(alloc, tables, partition, text),
        Some(Call::Look(partition, look)) => look_up(alloc, tables, partition, look),
        Some(Call::Find(partition, text)) => place(alloc, place_of(tables, partition, &text)),
        None => Ok(None),
    }
}

/// The answer to a call that names no text.
fn look_up<T: Tables>(
    alloc: Global,
    tables: &T,
    partition: Partition,
    look: Look,
) -> Result<Option<String>, AllocError> {
    match look {
        Look::Count => number(alloc, count(tables, partition)),
        Look::At(at) => found(alloc, text_at(tables, partition, at)),
        Look::Least(at) => number(alloc, least(tables, partition, at)),
    }
}

/// Adds a text, and answers with its place, or `added` for a value; nothing where the partition is not there or full.
fn add<T: Tables>(
    alloc: Global,
    tables: &mut T,
    partition: Partition,
    text: Txt,
) -> Result<Option<String>, AllocError> {
    match partition {
        Partition::Uris => add_uri(alloc, tables, text),
        Partition::Locals(uri) => add_local(alloc, tables, uri, text),
        Partition::Prefixes(uri) => add_prefix(alloc, tables, uri, text),
        Partition::Own(name) => add_value(alloc, tables, name, text),
        Partition::Values => Ok(None),
    }
}

fn add_uri<T: Tables>(
    alloc: Global,
    tables: &mut T,
    text: Txt,
) -> Result<Option<String>, AllocError> {
    if tables.uris() == u32::MAX {
        return Ok(None);
    }
    number(alloc, Some(tables.add_uri(text)?))
}

fn add_local<T: Tables>(
    alloc: Global,
    tables: &mut T,
    uri: u32,
    text: Txt,
) -> Result<Option<String>, AllocError> {
    if uri >= tables.uris() || tables.locals(uri) == u32::MAX {
        return Ok(None);
    }
    number(alloc, Some(tables.add_local(uri, text)?))
}

fn add_prefix<T: Tables>(
    alloc: Global,
    tables: &mut T,
    uri: u32,
    text: Txt,
) -> Result<Option<String>, AllocError> {
    if uri >= tables.uris() || tables.prefixes(uri) == u32::MAX {
        return Ok(None);
    }
    number(alloc, Some(tables.add_prefix(uri, text)?))
}

fn add_value<T: Tables>(
    alloc: Global,
    tables: &mut T,
    name: NameId,
    text: Txt,
) -> Result<Option<String>, AllocError> {
    if !is_name(tables, name)
        || tables.values() == u32::MAX
        || tables.name_values(name) == u32::MAX
    {
        return Ok(None);
    }
    tables.add_value(name, text)?;
    Ok(Some(String::from_str(alloc, "added")?))
}

/// How many places the partition has, where it is there.
fn count<T: Tables>(tables: &T, partition: Partition) -> Option<u32> {
    match partition {
        Partition::Uris => Some(tables.uris()),
        Partition::Locals(uri) if uri < tables.uris() => Some(tables.locals(uri)),
        Partition::Prefixes(uri) if uri < tables.uris() => Some(tables.prefixes(uri)),
        Partition::Values => Some(tables.values()),
        Partition::Own(name) if is_name(tables, name) => Some(tables.name_values(name)),
        _ => None,
    }
}

/// The text at a place of the partition, where that is there.
fn text_at<T: Tables>(tables: &T, partition: Partition, place: u32) -> Option<Option<&Txt>> {
    match partition {
        Partition::Uris => Some(tables.uri_at(place)),
        Partition::Locals(uri) if uri < tables.uris() => Some(tables.local_at(uri, place)),
        Partition::Prefixes(uri) if uri < tables.uris() => Some(tables.prefix_at(uri, place)),
        Partition::Values => Some(tables.value_at(place)),
        Partition::Own(name) if is_name(tables, name) => Some(tables.name_value_at(name, place)),
        _ => None,
    }
}

/// The least place of a text in the partition, where that is there.
fn place_of<T: Tables>(tables: &T, partition: Partition, text: &Txt) -> Option<Option<u32>> {
    match partition {
        Partition::Uris => Some(tables.uri_of(text)),
        Partition::Locals(uri) if uri < tables.uris() => Some(tables.local_of(uri, text)),
        Partition::Prefixes(uri) if uri < tables.uris() => Some(tables.prefix_of(uri, text)),
        Partition::Values => Some(tables.value_place(text)),
        Partition::Own(name) if is_name(tables, name) => Some(tables.name_value_place(name, text)),
        _ => None,
    }
}

/// The least place of the URI, or the local name, at a place that is there.
fn least<T: Tables>(tables: &T, partition: Partition, place: u32) -> Option<u32> {
    match partition {
        Partition::Uris if place < tables.uris() => Some(tables.least_uri(place)),
        Partition::Locals(uri) if uri < tables.uris() && place < tables.locals(uri) => {
            Some(tables.least_local(uri, place))
        }
        _ => None,
    }
}

/// A number as an answer.
fn number(alloc: Global, number: Option<u32>) -> Result<Option<String>, AllocError> {
    match number {
        Some(number) => Ok(Some(format!(in alloc; "{number}")?)),
        None => Ok(None),
    }
}

/// A place, or that there is none.
fn place(alloc: Global, place: Option<Option<u32>>) -> Result<Option<String>, AllocError> {
    match place {
        Some(None) => Ok(Some(String::from_str(alloc, "none")?)),
        Some(place) => number(alloc, place),
        None => Ok(None),
    }
}

/// A text, or that there is none.
fn found(alloc: Global, text: Option<Option<&Txt>>) -> Result<Option<String>, AllocError> {
    match text {
        Some(Some(text)) => Ok(Some(show::hex(alloc, text.as_str().as_bytes())?)),
        Some(None) => Ok(Some(String::from_str(alloc, "none")?)),
        None => Ok(None),
    }
}
