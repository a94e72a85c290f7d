ghost use Rattle.std.specs.Prelude.{◌≡◌, IfOk};
ghost use Rattle.exi_gram.specs.Switches.{fragment};
ghost use Rattle.exi_names.specs.StartTables.{IsStart};
ghost use Rattle.exi_processing.specs.Configurations.{IsSetting, first_tables};
ghost use Rattle.exi_processing.specs.Handing.{first_outer_of};

use crate::frames::Outer;
use crate::start::Start;
use bitflags::Flags;
use exi_gram::{Book, OptionFlags, Options};
use exi_tables::{FirstTables, Tables};
use std::alloc::{AllocError, Global};

/// The state at which reading begins, by whether there is a schema.
pub fn first_outer(known: bool, options: &Options, start: Start) -> Outer
    ensures { result ≡ first_outer_of known (fragment options.now) start }
{
    let fragment = options.flags.contains(OptionFlags::FRAGMENT);
    match start {
        Start::Body => {
            if fragment && !known {
                Outer::FragmentStart
            } else {
                Outer::Book {
                    grammar: u32::from(fragment),
                    state: 0,
                }
            }
        }
        Start::Fragment(_) => Outer::AloneStart,
    }
}

/// The string tables with which the bodies and fragments of a book begin (EXI 1.0, appendix D).
///
/// # Errors
///
/// `AllocError` where memory is refused.
pub fn first_tables(alloc: Global, book: &Book) -> Result<FirstTables, AllocError>
    ensures names { IfOk result (λ first. first ≡ book.now.schema.names) }
    ensures setting { IsSetting book.now }
    ensures start { IsStart book.now.schema.names }
{
    let _ = book.options();
    let names = book.schema().names();
    let _ = names.uris();
    FirstTables::of(alloc, names)
}

/// The string tables at the start of a body or a fragment. Takes no memory.
///
/// # Errors
///
/// `AllocError` where the first tables are shared by more tables than can be counted.
pub fn tables_at_start<T: Tables>(
    alloc: Global,
    book: &Book,
    first: &FirstTables,
) -> Result<T, AllocError>
    requires names { first.now ≡ book.now.schema.names }
    ensures tables { IfOk result (λ t. T.held t ≡ first_tables book.now) }
{
    let options = book.options();
    let first = first.share()?;
    Ok(T::start(alloc, first, options.most, options.capacity))
}
