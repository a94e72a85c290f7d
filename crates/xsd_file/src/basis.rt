ghost use Rattle.std.specs.Prelude.{◌≡◌, IfOk, false};
ghost use Rattle.exi_gram.specs.Switches.{conflicts};
ghost use Rattle.exi_opening.specs.Openings.{setting_by};
ghost use Rattle.xsd_file.specs.Bases.{chosen, if_any};

use exi_codes::book;
use exi_gram::{Book, Options, Schema, SchemaWord};
use exi_opening::is_empty_name;
use exi_schema::no_schema;
use std::alloc::{AllocError, Global};
use xsd_known::types_alone;

/// The schema that is known, if there is one.
fn if_any(alloc: Global, known: Option<Schema>) -> Result<Schema, AllocError>
    ensures { IfOk result (λ s. s ≡ if_any known) }
{
    match known {
        Some(schema) => Ok(schema),
        None => no_schema(alloc),
    }
}

/// Which schema a body goes by whose header says this of it.
fn chosen(alloc: Global, known: Option<Schema>, word: &SchemaWord) -> Result<Schema, AllocError>
    ensures { IfOk result (λ s. s ≡ chosen known word.now) }
{
    match word {
        SchemaWord::Absent => if_any(alloc, known),
        SchemaWord::Nil => no_schema(alloc),
        SchemaWord::Id(name) if is_empty_name(name) => types_alone(alloc),
        SchemaWord::Id(_) => if_any(alloc, known),
    }
}

/// What a stream with these options is read by: the schema that is known, if there is one, unless its header says that there is
/// none, or names the types of XML Schema alone.
///
/// # Errors
///
/// `AllocError` where memory is refused.
pub fn book_by(alloc: Global, known: Option<Schema>, options: Options) -> Result<Book, AllocError>
    requires free { conflicts options ≡ false }
    ensures { IfOk result (λ b. b ≡ setting_by (chosen known options.schema) options) }
{
    let schema = chosen(alloc, known, &options.schema)?;
    book(alloc, schema, options)
}
