//! What a production reads, as it is printed.
//!
//! ```text
//! SD ED EE NS SC ER CM PI DT TYPE NIL
//! SE{URI}LOCAL   SE{URI}*   SE*
//! AT{URI}LOCAL:DATATYPE   AT{URI}*   AT*   AT{URI}LOCAL:untyped   AT*:untyped
//! CH:DATATYPE   CH:untyped
//! ```

use exi_cases::datatypes::moment_word;
use exi_cases::show::hex;
use exi_gram::Terminal;
use exi_names::{Alphabet, Datatype, QName, Txt};
use std::alloc::{AllocError, Global};

/// The letters of a restricted set, as the hex of their UTF-8.
fn letters(alloc: Global, set: &Alphabet) -> Result<String, AllocError> {
    let text = hex(alloc, set.text().as_str().as_bytes())?;
    format!(in alloc; "chars:{text}")
}

/// The name of a datatype that is neither a list nor an enumeration.
fn item_word(alloc: Global, datatype: &Datatype) -> Result<String, AllocError> {
    match datatype {
        Datatype::Small { least, count } => format!(in alloc; "small:{least}:{count}"),
        Datatype::Unsigned => String::from_str(alloc, "unsigned"),
        Datatype::Integer => String::from_str(alloc, "integer"),
        Datatype::Boolean { pattern: false } => String::from_str(alloc, "boolean"),
        Datatype::Boolean { pattern: true } => String::from_str(alloc, "boolean-pattern"),
        Datatype::Binary { hex: true } => String::from_str(alloc, "hex"),
        Datatype::Binary { hex: false } => String::from_str(alloc, "base64"),
        Datatype::Decimal => String::from_str(alloc, "decimal"),
        Datatype::Float => String::from_str(alloc, "float"),
        Datatype::Moment(kind) => String::from_str(alloc, moment_word(*kind)),
        Datatype::Text => String::from_str(alloc, "text"),
        Datatype::Chars(set) => letters(alloc, set),
        Datatype::Name { prefixes: _ } => String::from_str(alloc, "name"),
        Datatype::List(_) | Datatype::Choice { base: _, values: _ } => {
            String::from_str(alloc, "?")
        }
    }
}

/// The name of a datatype that is no list: of an enumeration the number of its values, and its base.
fn choice_word(alloc: Global, datatype: &Datatype) -> Result<String, AllocError> {
    match datatype {
        Datatype::Choice { base, values } => {
            let count = values.as_slice().len();
            let base = item_word(alloc, base)?;
            format!(in alloc; "choice:{count}:{base}")
        }
        _ => item_word(alloc, datatype),
    }
}

/// The name of a datatype.
fn word(alloc: Global, datatype: &Datatype) -> Result<String, AllocError> {
    match datatype {
        Datatype::List(item) => {
            let item = choice_word(alloc, item)?;
            format!(in alloc; "list:{item}")
        }
        _ => choice_word(alloc, datatype),
    }
}

/// An event's word, a name behind it, and what follows.
fn named(alloc: Global, event: &str, name: &QName, rest: &str) -> Result<String, AllocError> {
    let uri = name.uri.as_str();
    let local = name.local.as_str();
    format!(in alloc; "{event}{{{uri}}}{local}{rest}")
}

/// An event's word, with any name of a URI.
fn within(alloc: Global, event: &str, uri: &Txt) -> Result<String, AllocError> {
    let uri = uri.as_str();
    format!(in alloc; "{event}{{{uri}}}*")
}

/// An attribute of a name, with its datatype.
fn typed(alloc: Global, name: &QName, datatype: &Datatype) -> Result<String, AllocError> {
    let word = word(alloc, datatype)?;
    let rest = format!(in alloc; ":{word}")?;
    named(alloc, "AT", name, rest.as_str())
}

/// Characters, with their datatype.
fn characters(alloc: Global, datatype: &Datatype) -> Result<String, AllocError> {
    let word = word(alloc, datatype)?;
    format!(in alloc; "CH:{word}")
}

/// What a production reads.
pub fn terminal(alloc: Global, on: &Terminal) -> Result<String, AllocError> {
    let word = match on {
        Terminal::Se(name) => return named(alloc, "SE", name, ""),
        Terminal::SeIn(uri) => return within(alloc, "SE", uri),
        Terminal::At(name, datatype) => return typed(alloc, name, datatype),
        Terminal::AtIn(uri) => return within(alloc, "AT", uri),
        Terminal::AtText(name) => return named(alloc, "AT", name, ":untyped"),
        Terminal::Ch(datatype) => return characters(alloc, datatype),
        Terminal::Sd => "SD",
        Terminal::Ed => "ED",
        Terminal::SeAny => "SE*",
        Terminal::AtAny => "AT*",
        Terminal::AtAnyText => "AT*:untyped",
        Terminal::XsiType => "TYPE",
        Terminal::XsiNil => "NIL",
        Terminal::ChText => "CH:untyped",
        Terminal::Ee => "EE",
        Terminal::Ns => "NS",
        Terminal::Sc => "SC",
        Terminal::Er => "ER",
        Terminal::Cm => "CM",
        Terminal::Pi => "PI",
        Terminal::Dt => "DT",
    };
    String::from_str(alloc, word)
}
