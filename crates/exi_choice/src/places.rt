ghost use Rattle.std.specs.Prelude.{◌≡◌};
ghost use Rattle.exi_choice.specs.Wanted.{place_told, told_of};
ghost use Rattle.exi_names.specs.Shown.{named};

use exi_names::{NameId, NameRef};
use exi_processing::Telling;
use exi_tables::Tables;

/// What a code can tell of a name: its least places, where it stands in the tables; that of its URI, where it alone
/// stands; or nothing.
pub fn told_of<T: Tables>(tables: &T, name: NameRef<'_>) -> Telling
    ensures { result ≡ told_of (T.held tables.now) (named name.entry) }
{
    let Some(uri) = tables.uri_of(name.uri) else {
        return Telling::Spelled;
    };
    match tables.local_of(uri, name.local) {
        Some(local) => Telling::Known(NameId { uri, local }),
        None => Telling::Under(uri),
    }
}

/// The places that are told of a whole name.
pub fn place_told(telling: Telling) -> Option<NameId>
    ensures { result ≡ place_told telling }
{
    match telling {
        Telling::Known(id) => Some(id),
        Telling::Spelled | Telling::Under(_) => None,
    }
}
