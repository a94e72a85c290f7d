ghost use Rattle.std.specs.Prelude.{◌≡◌};
ghost use Rattle.exi_gram.specs.Candidates.{sought_by};

use exi_names::NameId;

/// The least places in the first string tables (EXI 1.0, section 7.3 and appendix D) of what a production
/// names.
#[derive(Clone, Copy, Debug, PartialEq, Eq)]
pub enum Named {
    /// It names nothing.
    Nothing,
    /// The place of its URI.
    Uri(u32),
    /// The places of its name.
    Name(NameId),
}

impl Named {
    /// The places by which a production is sought; zeros stand where it has none.
    pub fn sought(self) -> NameId
        ensures { result ≡ sought_by self }
    {
        match self {
            Named::Nothing => NameId { uri: 0, local: 0 },
            Named::Uri(uri) => NameId { uri, local: 0 },
            Named::Name(name) => name,
        }
    }
}
