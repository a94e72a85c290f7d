//! The lines of events.

ghost use Rattle.std.specs.Prelude.{◌≡◌, ◌++◌, ◌∷◌, OnOk, OnErr, IfOk, codes, decimal, encode_utf8_all, string_bytes};
ghost use Rattle.exi_names.specs.Events.{happens};
ghost use Rattle.exi_names.specs.Shown.{named, shown, shows};
ghost use Rattle.exi_evtext.specs.Kept.{Keeps};
ghost use Rattle.exi_evtext.specs.Lines.{also, line_of, name_words, quoted, truth_word, value_words, words};

use crate::quote::{push_also, push_name, push_quoted};
use crate::value::push_value;
use exi_digits::push_number;
use exi_names::{Event, EventRef, NameRef, Txt, ValRef};
use std::alloc::{AllocError, Global};

/// A word and a text.
fn push_labelled(out: &mut String, word: &str, text: &Txt) -> Result<(), AllocError>
    ensures ok { OnOk result (string_bytes out.new ≡ string_bytes out.old ++ (word.now ++ quoted text.now)) }
    ensures err { OnErr result (Keeps (string_bytes out.old) (string_bytes out.new)) }
{
    out.push_str(word)?;
    push_quoted(out, text)
}

/// A value that stands elsewhere.
fn push_shown(out: &mut String, value: &ValRef<'_>) -> Result<(), AllocError>
    ensures ok { OnOk result (string_bytes out.new ≡ string_bytes out.old ++ value_words (shown value.now)) }
    ensures err { OnErr result (Keeps (string_bytes out.old) (string_bytes out.new)) }
{
    match value {
        ValRef::Text(text) => push_labelled(out, "text ", text),
        ValRef::Any(value) => push_value(out, value),
    }
}

/// An attribute.
fn push_attribute(
    out: &mut String,
    name: &NameRef<'_>,
    value: &ValRef<'_>,
) -> Result<(), AllocError>
    ensures ok { OnOk result (string_bytes out.new ≡ string_bytes out.old ++ (codes "AT " ++ name_words (named name.now) ++ 32 ∷ value_words (shown value.now))) }
    ensures err { OnErr result (Keeps (string_bytes out.old) (string_bytes out.new)) }
{
    out.push_str("AT ")?;
    push_name(out, name)?;
    out.push(' ')?;
    push_shown(out, value)
}

/// A namespace declaration.
fn push_namespace(
    out: &mut String,
    uri: &Txt,
    prefix: &Txt,
    element: bool,
) -> Result<(), AllocError>
    ensures ok { OnOk result (string_bytes out.new ≡ string_bytes out.old ++ (codes "NS " ++ quoted uri.now ++ also prefix.now ++ 32 ∷ truth_word element)) }
    ensures err { OnErr result (Keeps (string_bytes out.old) (string_bytes out.new)) }
{
    push_labelled(out, "NS ", uri)?;
    push_also(out, prefix)?;
    out.push_str(if element { " true" } else { " false" })
}

/// A document type declaration.
fn push_doctype(
    out: &mut String,
    name: &Txt,
    public: &Txt,
    system: &Txt,
    text: &Txt,
) -> Result<(), AllocError>
    ensures ok { OnOk result (string_bytes out.new ≡ string_bytes out.old ++ (codes "DT " ++ quoted name.now ++ also public.now ++ also system.now ++ also text.now)) }
    ensures err { OnErr result (Keeps (string_bytes out.old) (string_bytes out.new)) }
{
    push_labelled(out, "DT ", name)?;
    push_also(out, public)?;
    push_also(out, system)?;
    push_also(out, text)
}

/// What an event says, without the line's end.
fn push_words(out: &mut String, event: &EventRef<'_>) -> Result<(), AllocError>
    ensures ok { OnOk result (string_bytes out.new ≡ string_bytes out.old ++ words (shows event.now)) }
    ensures err { OnErr result (Keeps (string_bytes out.old) (string_bytes out.new)) }
{
    match event {
        EventRef::Sd => out.push_str("SD"),
        EventRef::Ed => out.push_str("ED"),
        EventRef::Se(name) => {
            out.push_str("SE ")?;
            push_name(out, name)
        }
        EventRef::Ee => out.push_str("EE"),
        EventRef::At(name, value) => push_attribute(out, name, value),
        EventRef::Ch(value) => {
            out.push_str("CH ")?;
            push_shown(out, value)
        }
        EventRef::Ns {
            uri,
            prefix,
            element,
        } => push_namespace(out, uri, prefix, *element),
        EventRef::Sc { at } => {
            out.push_str("SC ")?;
            push_number(out, u128::from(*at))
        }
        EventRef::Cm(text) => push_labelled(out, "CM ", text),
        EventRef::Pi { target, text } => {
            push_labelled(out, "PI ", target)?;
            push_also(out, text)
        }
        EventRef::Dt {
            name,
            public,
            system,
            text,
        } => push_doctype(out, name, public, system, text),
        EventRef::Er(name) => push_labelled(out, "ER ", name),
    }
}

/// What an event says, and the line feed.
#[tactic(auto, unfolding(crate::specs::Lines::line_of))]
fn push_line(out: &mut String, event: &EventRef<'_>) -> Result<(), AllocError>
    ensures ok { OnOk result (string_bytes out.new ≡ string_bytes out.old ++ line_of (shows event.now)) }
    ensures err { OnErr result (Keeps (string_bytes out.old) (string_bytes out.new)) }
{
    push_words(out, event)?;
    out.push('\n')
}

/// Puts the line of an event at the end, with the line feed that ends it.
///
/// # Errors
///
/// `AllocError` where memory is refused; the text is then as it was.
pub fn push_event(line: &mut String, event: &EventRef<'_>) -> Result<(), AllocError>
    ensures ok { OnOk result (string_bytes line.new ≡ string_bytes line.old ++ line_of (shows event.now)) }
    ensures err { OnErr result (string_bytes line.new ≡ string_bytes line.old) }
{
    let start = line.len();
    match push_line(line, event) {
        Ok(()) => Ok(()),
        Err(refused) => {
            line.truncate(start);
            Err(refused)
        }
    }
}

/// The line of an event, without the line feed that ends it.
///
/// # Errors
///
/// `AllocError` where memory is refused.
pub fn print_event(alloc: Global, event: &Event) -> Result<Txt, AllocError>
    ensures { IfOk result (λ text. encode_utf8_all text ≡ words (happens event.now)) }
{
    let mut out = String::new(alloc);
    push_words(&mut out, &event.as_ref())?;
    Ok(Txt::from_string(out))
}
