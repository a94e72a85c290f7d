ghost use Rattle.std.specs.Prelude.{◌≡◌};
ghost use Rattle.std.specs.Option.{option_copied};
ghost use Rattle.exi_gram.specs.Globals.{attribute_datatype};
ghost use Rattle.exi_names.specs.Shown.{named};
ghost use Rattle.exi_processing.specs.Changes.{opener};
ghost use Rattle.exi_processing.specs.Handing.{datatype_in};

use exi_gram::Book;
use exi_names::{Datatype, NameRef};

/// The place of the grammar by which an element of this name is opened: that which its production tells, or else that
/// of the global element of its name, where there is one (EXI 1.0, section 8.5.4.1.6).
#[inline(always)]
pub fn opener(book: &Book, name: NameRef<'_>, inner: Option<u32>) -> Option<u32>
    ensures { result ≡ opener book.now (named name.entry) inner }
{
    match inner {
        Some(grammar) => Some(grammar),
        None => book.element_grammar(name),
    }
}

/// The datatype of the global attribute of this name, where there is one; any other attribute has a string.
pub fn attribute_datatype<'a>(book: &'a Book, name: NameRef<'_>) -> Option<&'a Datatype>
    ensures { datatype_in (option_copied result) ≡ attribute_datatype book.now.schema.attributes (named name.entry) }
{
    book.attribute_datatype(name)
}
