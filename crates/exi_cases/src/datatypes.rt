//! The names of datatypes.
//!
//! `integer`, `unsigned`, `boolean`, `boolean-pattern`, `decimal`, `float`, `hex`, `base64`, the eight kinds of dates
//! and times, `text`; `small:LEAST:COUNT`; `chars:TEXT`; `list:` and the name of the items' datatype, which is no list
//! and no enumeration; `choice:`, the name of such a datatype, `:`, and the texts of the enumerated values, joined by
//! `,`.

use crate::fields::{set_of, text_of};
use exi_lexical::value_of;
use exi_names::{Datatype, MomentKind, Val, ValList};
use std::alloc::{AllocError, Global};

/// The kind of dates or times of that name.
pub fn moment_kind(name: &str) -> Option<MomentKind> {
    match name {
        "gYear" => Some(MomentKind::GYear),
        "gYearMonth" => Some(MomentKind::GYearMonth),
        "date" => Some(MomentKind::Date),
        "dateTime" => Some(MomentKind::DateTime),
        "gMonth" => Some(MomentKind::GMonth),
        "gMonthDay" => Some(MomentKind::GMonthDay),
        "gDay" => Some(MomentKind::GDay),
        "time" => Some(MomentKind::Time),
        _ => None,
    }
}

/// The name of a kind of dates or times.
pub fn moment_word(kind: MomentKind) -> &'static str {
    match kind {
        MomentKind::GYear => "gYear",
        MomentKind::GYearMonth => "gYearMonth",
        MomentKind::Date => "date",
        MomentKind::DateTime => "dateTime",
        MomentKind::GMonth => "gMonth",
        MomentKind::GMonthDay => "gMonthDay",
        MomentKind::GDay => "gDay",
        MomentKind::Time => "time",
    }
}

/// `LEAST:COUNT`
fn small(range: &str) -> Option<Datatype> {
    let (least, count) = range.split_once(':')?;
    let (Ok(least), Ok(count)) = (least.parse::<i128>(), count.parse::<u16>()) else {
        return None;
    };
    Some(Datatype::Small { least, count })
}

/// The restricted set of the letters' characters.
fn letters(alloc: Global, letters: &str) -> Result<Option<Datatype>, AllocError> {
    match set_of(alloc, letters)? {
        Some(Some(set)) => Ok(Some(Datatype::Chars(set))),
        Some(None) | None => Ok(None),
    }
}

/// The datatype that is one word.
fn word(name: &str) -> Option<Datatype> {
    match name {
        "integer" => Some(Datatype::Integer),
        "unsigned" => Some(Datatype::Unsigned),
        "boolean" => Some(Datatype::Boolean { pattern: false }),
        "boolean-pattern" => Some(Datatype::Boolean { pattern: true }),
        "decimal" => Some(Datatype::Decimal),
        "float" => Some(Datatype::Float),
        "hex" => Some(Datatype::Binary { hex: true }),
        "base64" => Some(Datatype::Binary { hex: false }),
        "text" => Some(Datatype::Text),
        _ => Some(Datatype::Moment(moment_kind(name)?)),
    }
}

/// The datatype of that name, where it is neither a list nor an enumeration.
fn item(alloc: Global, name: &str) -> Result<Option<Datatype>, AllocError> {
    if let Some(range) = name.strip_prefix("small:") {
        return Ok(small(range));
    }
    match name.strip_prefix("chars:") {
        Some(set) => letters(alloc, set),
        None => Ok(word(name)),
    }
}

/// The value of a text.
fn value(alloc: Global, base: &Datatype, text: &str) -> Result<Option<Val>, AllocError> {
    match text_of(alloc, text)? {
        Some(text) => value_of(alloc, base, &text),
        None => Ok(None),
    }
}

/// The values of these texts, where each has one.
fn values(alloc: Global, base: &Datatype, texts: &str) -> Result<Option<ValList>, AllocError> {
    let mut values = ValList::new(alloc);
    for text in texts.split(',') {
        match value(alloc, base, text)? {
            Some(value) => values.push(value)?,
            None => return Ok(None),
        }
    }
    Ok(Some(values))
}

/// `DATATYPE:TEXT,TEXT`
fn choice(alloc: Global, listed: &str) -> Result<Option<Datatype>, AllocError> {
    let Some((base, texts)) = listed.rsplit_once(':') else {
        return Ok(None);
    };
    match item(alloc, base)? {
        Some(base) => choice_of(alloc, base, texts),
        None => Ok(None),
    }
}

fn choice_of(alloc: Global, base: Datatype, texts: &str) -> Result<Option<Datatype>, AllocError> {
    match values(alloc, &base, texts)? {
        Some(values) => Ok(Some(Datatype::Choice {
            base: Box::new(alloc, base)?,
            values,
        })),
        None => Ok(None),
    }
}

fn list(alloc: Global, items: &str) -> Result<Option<Datatype>, AllocError> {
    match item(alloc, items)? {
        Some(item) => Ok(Some(Datatype::List(Box::new(alloc, item)?))),
        None => Ok(None),
    }
}

/// The datatype of that name.
pub fn datatype(alloc: Global, name: &str) -> Result<Option<Datatype>, AllocError> {
    if let Some(listed) = name.strip_prefix("choice:") {
        return choice(alloc, listed);
    }
    match name.strip_prefix("list:") {
        Some(items) => list(alloc, items),
        None => item(alloc, name),
    }
}
