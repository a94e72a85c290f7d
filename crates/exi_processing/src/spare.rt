ghost use Rattle.std.specs.Prelude.{◌≡◌, [], IfOk};
ghost use Rattle.exi_builtin.specs.Learning.{nothing_learned};
ghost use Rattle.exi_processing.specs.Configurations.{first_tables};

use crate::elements::Elements;
use exi_builtin::Overlay;
use exi_gram::Book;
use exi_tables::{FirstTables, Tables};
use std::alloc::AllocError;

/// What a fragment used, once it has ended: its string tables, learned grammars and list of open elements. The next
/// fragment begins in their room.
#[derive(Drop)]
pub struct Spare<T: Tables + Drop> {
    tables: T,
    overlay: Overlay,
    elements: Elements,
}

impl<T: Tables + Drop> Spare<T> {
    /// What a fragment used.
    pub fn of(tables: T, overlay: Overlay, elements: Elements) -> Spare<T> {
        Spare {
            tables,
            overlay,
            elements,
        }
    }

    /// What a fragment begins with: nothing of what was there is left. Takes no memory.
    ///
    /// # Errors
    ///
    /// `AllocError` where the first tables are shared by more tables than can be counted.
    pub fn into_parts(
        self,
        book: &Book,
        first: &FirstTables,
    ) -> Result<(T, Overlay, Elements), AllocError>
        requires names { first.now ≡ book.now.schema.names }
        ensures tables { IfOk result (λ parts. T.held parts.0 ≡ first_tables book.now) }
        ensures learned { IfOk result (λ parts. parts.1 ≡ nothing_learned) }
        ensures elements { IfOk result (λ parts. parts.2 ≡ []) }
    {
        let options = book.options();
        let first = first.share()?;
        let (mut tables, mut overlay, mut elements) = (self.tables, self.overlay, self.elements);
        tables.restart(first, options.most, options.capacity);
        overlay.clear();
        elements.clear();
        Ok((tables, overlay, elements))
    }
}
