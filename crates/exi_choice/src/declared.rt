ghost use Rattle.std.specs.Prelude.{◌≡◌};
ghost use Rattle.std.specs.Option.{option_copied};
ghost use Rattle.exi_names.specs.Shown.{named};
ghost use Rattle.exi_processing.specs.Handing.{valuing_in};
ghost use Rattle.exi_processing.specs.Rules.{by_name};
ghost use Rattle.exi_choice.specs.Fitting.{declared_in, declaring, is_nil_at, is_type_at};

use exi_gram::Book;
use exi_names::{Datatype, NameId, NameRef};
use exi_processing::{Valuing, attribute_datatype, is_nil, is_type};

/// How the value of an attribute is represented under a production.
#[derive(Clone, Copy)]
pub enum Declared<'a> {
    /// As a name: that of the type by which the element goes on.
    Type,
    /// As a boolean: that of `xsi:nil`.
    Nil,
    /// By a datatype; where there is none, as a string.
    Datatype(Option<&'a Datatype>),
}

/// Whether these are the places of `xsi:type`.
fn is_type_at(id: Option<NameId>) -> bool
    ensures { result ≡ is_type_at id }
{
    match id {
        Some(id) => is_type(id),
        None => false,
    }
}

/// Whether these are the places of `xsi:nil`.
fn is_nil_at(id: Option<NameId>) -> bool
    ensures { result ≡ is_nil_at id }
{
    match id {
        Some(id) => is_nil(id),
        None => false,
    }
}

/// The same by the attribute's name alone, in a grammar of a schema.
#[inline(never)]
fn declaration_by_name<'a>(book: &'a Book, id: Option<NameId>, name: NameRef<'_>) -> Declared<'a>
    ensures { declaring result ≡ declared_in book.now.schema by_name id (named name.entry) }
{
    if is_type_at(id) {
        Declared::Type
    } else if is_nil_at(id) {
        Declared::Nil
    } else {
        Declared::Datatype(attribute_datatype(book, name))
    }
}

/// How the value of an attribute is represented, by what its production says of it and by its name (EXI 1.0, sections
/// 8.4.3 and 8.5.4.4), whose least places are told where it stands in the string tables.
#[inline(always)]
pub fn declaration_of<'a>(
    book: &'a Book,
    valuing: Valuing,
    datatype: Option<&'a Datatype>,
    id: Option<NameId>,
    name: NameRef<'_>,
) -> Declared<'a>
    ensures { declaring result ≡ declared_in book.now.schema (valuing_in valuing (option_copied datatype.entry)) id (named name.entry) }
{
    match valuing {
        Valuing::Typed => Declared::Datatype(datatype),
        Valuing::Untyped => {
            if is_type_at(id) {
                Declared::Type
            } else {
                Declared::Datatype(None)
            }
        }
        Valuing::ByName => declaration_by_name(book, id, name),
    }
}
