//! Names as the keys of maps.

ghost use Rattle.std.specs.Prelude.{◌≡◌};
ghost use Rattle.exi_vocabulary.specs.Collected.{pair_of};
ghost use Rattle.exi_vocabulary.specs.Named.{name_pair};

use exi_names::{QName, Txt};

/// A name without its prefix, by which things are found.
#[derive(Clone, Copy, Debug, PartialEq, Eq, Hash)]
pub(crate) struct Name<'a> {
    pub(crate) local: &'a Txt,
    pub(crate) uri: &'a Txt,
}

impl<'a> Name<'a> {
    /// That of a qualified name.
    pub(crate) fn of(name: &'a QName) -> Name<'a>
        ensures { name_pair result ≡ pair_of name.now }
    {
        Name {
            local: &name.local,
            uri: &name.uri,
        }
    }
}
