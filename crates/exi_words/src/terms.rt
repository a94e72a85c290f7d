//! What words say of a stream.

ghost use Rattle.std.specs.Prelude.{◌≡◌, option_map};
ghost use Rattle.exi_words.specs.Found.{rows_found};
ghost use Rattle.exi_words.specs.Meanings.{options_of, terms_meant, terms_of};

use crate::values::{flags_of, name_if, number_if, value};
use clap::ArgMatches;
use exi_gram::{Options, SchemaWord};

/// What the words say of a stream.
#[derive(Debug, Drop)]
pub struct Terms<'a> {
    /// The name of the file with the stream, or with the event text of which one is written.
    pub file: &'a str,
    /// The options that the words give; none excludes another, and none tells a schema.
    pub options: Options,
    /// The name of the file with a schema's document, where one is given.
    pub document: Option<&'a str>,
    /// The schema's name, where one is given: at most 65,536 characters, each of XML.
    pub name: Option<&'a str>,
}

/// The options of a stream, where none excludes another.
#[tactic(auto, unfolding(crate::specs::Meanings::options_of))]
fn options_of(matches: &ArgMatches<'_>) -> Option<Options>
    ensures { result ≡ options_of (rows_found matches.now) }
{
    let most = number_if(value(matches, "value-max-length"))?;
    let capacity = number_if(value(matches, "value-partition-capacity"))?;
    let options = Options {
        flags: flags_of(matches),
        schema: SchemaWord::Absent,
        block: 1_000_000,
        most,
        capacity,
    };
    if options.conflicts() {
        return None;
    }
    Some(options)
}

/// What the values say of a stream, where each is such as its option may have.
#[tactic(auto, unfolding(crate::specs::Meanings::terms_of))]
pub(crate) fn terms_of<'a>(matches: &ArgMatches<'a>) -> Option<Terms<'a>>
    ensures { option_map terms_meant result ≡ terms_of (rows_found matches.now) }
{
    let file = value(matches, "FILE")?;
    let options = options_of(matches)?;
    let name = name_if(value(matches, "schema-id"))?;
    Some(Terms {
        file,
        options,
        document: value(matches, "schema"),
        name,
    })
}
