ghost use Rattle.std.specs.Prelude.{◌≡◌, ◌<◌, length};
ghost use Rattle.std.specs.Option.{option_copied};
ghost use Rattle.exi_names.specs.Shown.{named};
ghost use Rattle.exi_tables.specs.Partitions.{prefixes, uris};
ghost use Rattle.exi_writing.specs.Pieces.{can_be_spelled, can_name, can_tell};

use exi_names::{NameRef, Txt};
use exi_tables::Tables;
use exi_text::is_writable;

/// Whether a text has a spelling: each of its characters is an XML character.
#[inline(always)]
pub fn can_be_spelled(text: &Txt) -> bool
    ensures { result ≡ can_be_spelled text.now }
{
    let _ = text.count();
    is_writable(text)
}

/// Whether the prefix of a name can be told, where prefixes are kept or not: it is one of those of the URI at a place, or
/// absent where that has none.
pub fn can_tell<T: Tables>(tables: &T, keep: bool, uri: u32, prefix: Option<&Txt>) -> bool
    requires uri { uri < length (uris (T.held tables.now)) }
    ensures { result ≡ can_tell keep (prefixes (T.held tables.now) uri) (option_copied prefix.entry) }
{
    match prefix {
        None => !keep || tables.prefixes(uri) == 0,
        Some(text) => keep && tables.prefix_of(uri, text).is_some(),
    }
}

/// Whether a name can be spelled.
pub fn can_name<T: Tables>(tables: &T, keep: bool, name: NameRef<'_>) -> bool
    ensures { result ≡ can_name keep (T.held tables.now) (named name.entry) }
{
    if !can_be_spelled(name.uri) || !can_be_spelled(name.local) {
        return false;
    }
    match tables.uri_of(name.uri) {
        Some(uri) => can_tell(tables, keep, uri, name.prefix),
        None => name.prefix.is_none(),
    }
}
