ghost use Rattle.std.specs.Prelude.{◌≡◌, IfOk};
ghost use Rattle.exi_gram.specs.Naming.{entry_of};
ghost use Rattle.exi_gram.specs.Terminals.{se, se_in, symbol};
ghost use Rattle.exi_gram.specs.Wholes.{plain};

use exi_gram::{Named, Terminal};
use exi_names::{NameId, QName, StartNames, Txt};
use exi_tables::{FirstTables, PlaceTables, Tables};
use std::alloc::{AllocError, Global};
use std::marker::Model;

/// The least places of names in the first string tables (EXI 1.0, section 7.3 and appendix D), found by hash.
#[derive(Drop)]
pub struct Places {
    tables: PlaceTables,
}

impl Model for Places {
    ghost use Rattle.exi_names.specs.StartTables.{Names};
    ghost use Rattle.exi_codes.specs.PlacedNames.{names_in};

    ghost Value = { Names };

    ghost view = { λ p. names_in p.tables };
}

impl Places {
    /// Those of the names of a schema.
    ///
    /// # Errors
    ///
    /// `AllocError` where memory is refused.
    pub fn of(alloc: Global, names: &StartNames) -> Result<Places, AllocError>
        ensures { IfOk result (λ places. places ≡ names.now) }
    {
        // Tells that there is a list of local names for each URI.
        let _ = names.uris();
        let first = FirstTables::of(alloc, names)?;
        let tables = PlaceTables::start(alloc, first, None, None);
        Ok(Places { tables })
    }

    /// The places of a name, where it stands in the tables.
    fn name(&self, name: &QName) -> Named
        ensures { result ≡ (entry_of self.now (plain (se name.now) 0)).named }
    {
        let Some(uri) = self.tables.uri_of(&name.uri) else {
            return Named::Nothing;
        };
        match self.tables.local_of(uri, &name.local) {
            None => Named::Nothing,
            Some(local) => Named::Name(NameId { uri, local }),
        }
    }

    /// The place of a URI, where it stands in the tables.
    fn uri(&self, uri: &Txt) -> Named
        ensures { result ≡ (entry_of self.now (plain (se_in uri.now) 0)).named }
    {
        match self.tables.uri_of(uri) {
            None => Named::Nothing,
            Some(uri) => Named::Uri(uri),
        }
    }

    /// The places of what a terminal names.
    pub fn named(&self, on: &Terminal) -> Named
        ensures { result ≡ (entry_of self.now (plain (symbol on.now) 0)).named }
    {
        match on {
            Terminal::Se(name) | Terminal::At(name, _) | Terminal::AtText(name) => self.name(name),
            Terminal::SeIn(uri) | Terminal::AtIn(uri) => self.uri(uri),
            Terminal::Sd
            | Terminal::Ed
            | Terminal::SeAny
            | Terminal::AtAny
            | Terminal::AtAnyText
            | Terminal::XsiType
            | Terminal::XsiNil
            | Terminal::Ch(_)
            | Terminal::ChText
            | Terminal::Ee
            | Terminal::Ns
            | Terminal::Sc
            | Terminal::Er
            | Terminal::Cm
            | Terminal::Pi
            | Terminal::Dt => Named::Nothing,
        }
    }
}
