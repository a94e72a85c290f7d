//! The case of event codes: the states of a stream without a schema, under the option flags.
//!
//! Each state is its letter and then its productions in the order of their codes: `D`, `C` and `E` are the states of a
//! document, `F` the content of a fragment, `S` and `T` the start tag and the content of an element.

ghost use Rattle.std.specs.Prelude.{◌≡◌, false};
ghost use Rattle.exi_builtin.specs.Learning.{IsRoom};
ghost use Rattle.exi_gram.specs.Switches.{conflicts};

use exi_builtin::{Learnable, LookUp, Overlay, Room};
use exi_cases::options::options_of;
use exi_codes::book;
use exi_gram::{Book, Code, Options, Terminal};
use exi_names::NameId;
use exi_schema::no_schema;
use std::alloc::{AllocError, Global};

/// `codes FLAGS`
pub fn answer(alloc: Global, fields: &[&str]) -> Result<Option<String>, AllocError> {
    let ["codes", flags] = fields else {
        return Ok(None);
    };
    let Some(options) = options_of(flags) else {
        return Ok(None);
    };
    let mut all = String::from_str(alloc, "codes")?;
    built_in(alloc, &mut all, &options)?;
    document(alloc, &mut all, options)?;
    Ok(Some(all))
}

/// The states of an element, and of a fragment.
fn built_in(alloc: Global, all: &mut String, options: &Options) -> Result<(), AllocError> {
    let mut overlay = Overlay::new(alloc, LookUp::ByCode);
    let number = overlay.grammar(NameId { uri: 0, local: 0 })?;
    push_room(alloc, all, "S", &overlay, Room::StartTag(number), options)?;
    push_room(alloc, all, "T", &overlay, Room::Content(number), options)?;
    push_room(alloc, all, "F", &overlay, Room::Fragment, options)
}

/// A state of the built-in grammars behind its letter.
fn push_room(
    alloc: Global,
    all: &mut String,
    letter: &str,
    overlay: &Overlay,
    room: Room,
    options: &Options,
) -> Result<(), AllocError>
    requires room { IsRoom overlay.now room }
{
    let list = overlay.codes(room, options)?;
    push_list(alloc, all, letter, list.as_slice())
}

/// The states of a document.
fn document(alloc: Global, all: &mut String, options: Options) -> Result<(), AllocError>
    requires no_conflict { conflicts options ≡ false }
{
    let book = book(alloc, no_schema(alloc)?, options)?;
    push_states(alloc, all, &book)
}

/// The states of a book, each behind its letter.
fn push_states(alloc: Global, all: &mut String, book: &Book) -> Result<(), AllocError> {
    for grammar in book.states() {
        for (state, letter) in grammar.as_slice().iter().zip(["D", "C", "E"]) {
            push_letter(all, letter)?;
            for coded in state.coded() {
                push(alloc, all, coded.code, terminal_word(&coded.production.on))?;
            }
        }
    }
    Ok(())
}

fn push_letter(all: &mut String, letter: &str) -> Result<(), AllocError> {
    all.push(' ')?;
    all.push_str(letter)
}

/// A state's letter, and its productions.
fn push_list(
    alloc: Global,
    all: &mut String,
    letter: &str,
    list: &[(Code, Learnable)],
) -> Result<(), AllocError> {
    push_letter(all, letter)?;
    for (code, production) in list {
        push(alloc, all, *code, word(*production))?;
    }
    Ok(())
}

/// A code, its parts joined by points, and what is read by it.
fn push(alloc: Global, all: &mut String, code: Code, word: &str) -> Result<(), AllocError> {
    let text = match code {
        Code::One(a) => format!(in alloc; " {a} {word}")?,
        Code::Two(a, b) => format!(in alloc; " {a}.{b} {word}")?,
        Code::Three(a, b, c) => format!(in alloc; " {a}.{b}.{c} {word}")?,
    };
    all.push_str(text.as_str())
}

/// What a built-in grammar reads.
fn word(production: Learnable) -> &'static str {
    match production {
        Learnable::Known(_, false) => "SE",
        Learnable::Known(_, true) => "AT",
        Learnable::SeAny => "SE*",
        Learnable::AtAny => "AT*",
        Learnable::Ch(_) => "CH",
        Learnable::Ee(_) => "EE",
        Learnable::Ed => "ED",
        Learnable::Ns => "NS",
        Learnable::Sc => "SC",
        Learnable::Er => "ER",
        Learnable::Cm => "CM",
        Learnable::Pi => "PI",
    }
}

/// What a document reads outside its root; `?` for what only a schema has.
fn terminal_word(on: &Terminal) -> &'static str {
    match on {
        Terminal::Sd => "SD",
        Terminal::Ed => "ED",
        Terminal::SeAny => "SE*",
        Terminal::Cm => "CM",
        Terminal::Pi => "PI",
        Terminal::Dt => "DT",
        _ => "?",
    }
}
