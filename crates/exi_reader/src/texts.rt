ghost use Rattle.std.specs.Prelude.{◌≡◌, ◌^◌, false, IfOk};
ghost use Rattle.exi_bits.specs.Bits.{IsAligned};
ghost use Rattle.exi_gram.specs.Switches.{align_of};
ghost use Rattle.exi_names.specs.Datatypes.{represented};
ghost use Rattle.exi_names.specs.Datatypes as datatype;
ghost use Rattle.exi_names.specs.Seen.{seen};
ghost use Rattle.exi_tables.specs.Growth.{KeepsAll, NoneLonger};
ghost use Rattle.exi_tables.specs.Partitions.{IsName};
ghost use Rattle.exi_typed.specs.ReadStates.{GoesOrStops, read_state};
ghost use Rattle.exi_values.specs.Stops.{IsRoomy};
ghost use Rattle.exi_values.specs.Valued.{valued_at};
ghost use Rattle.exi_processing.specs.Contents.{text_at};

use exi_bits::{BitIn, Stop};
use exi_gram::Book;
use exi_meter::Meter;
use exi_names::{Datatype, NameId, Txt, Val};
use exi_tables::Tables;
use exi_typed::read_literal;
use exi_values::read_value;
use std::alloc::Global;

/// Reads a text that stands in no string table, and leaves the tables as they are.
///
/// # Errors
///
/// Those of [`read_literal`]. The place may then be any.
pub fn text<T: Tables>(
    alloc: Global,
    book: &Book,
    input: &mut BitIn<'_>,
    tables: &T,
    meter: &mut Meter,
) -> Result<Txt, Stop>
    requires aligned { IsAligned (align_of book.now.options) input.old }
    ensures read { GoesOrStops
        (λ t. (t, read_state input.new meter.new (T.held tables.now)))
        meter.new
        result
        (text_at book.now (read_state input.old meter.old (T.held tables.now))) }
    ensures bytes { input.new.bytes ≡ input.old.bytes }
    ensures aligned { IsAligned (align_of book.now.options) input.new }
{
    read_literal(alloc, input, book.options().align(), meter)
}

/// Reads a value of a datatype under a name, whose places exist.
///
/// # Errors
///
/// Those of [`read_value`]. The place may then be any.
pub fn typed_value<T: Tables>(
    alloc: Global,
    book: &Book,
    input: &mut BitIn<'_>,
    datatype: &Datatype,
    name: NameId,
    tables: &mut T,
    meter: &mut Meter,
) -> Result<Val, Stop>
    requires name { IsName (T.held tables.old) name }
    requires few { NoneLonger (2 ^ 31) (T.held tables.old) }
    requires roomy { IsRoomy meter.old (T.held tables.old) }
    requires aligned { IsAligned (align_of book.now.options) input.old }
    ensures read { GoesOrStops
        (λ v. (seen v, read_state input.new meter.new (T.held tables.new)))
        meter.new
        result
        (valued_at (represented datatype.now) (align_of book.now.options) name (read_state input.old meter.old (T.held tables.old))) }
    ensures keeps { IfOk result (λ v. KeepsAll (T.held tables.old) (T.held tables.new)) }
    ensures bytes { input.new.bytes ≡ input.old.bytes }
    ensures aligned { IsAligned (align_of book.now.options) input.new }
{
    read_value(
        alloc,
        input,
        datatype,
        book.options().align(),
        name,
        tables,
        meter,
    )
}

/// Reads the value of `xsi:nil`, a boolean, under its name, whose places exist.
///
/// # Errors
///
/// Those of [`read_value`]. The place may then be any.
pub fn nil_read<T: Tables>(
    alloc: Global,
    book: &Book,
    input: &mut BitIn<'_>,
    name: NameId,
    tables: &mut T,
    meter: &mut Meter,
) -> Result<Val, Stop>
    requires name { IsName (T.held tables.old) name }
    requires few { NoneLonger (2 ^ 31) (T.held tables.old) }
    requires roomy { IsRoomy meter.old (T.held tables.old) }
    requires aligned { IsAligned (align_of book.now.options) input.old }
    ensures read { GoesOrStops
        (λ v. (seen v, read_state input.new meter.new (T.held tables.new)))
        meter.new
        result
        (valued_at (datatype.boolean false) (align_of book.now.options) name (read_state input.old meter.old (T.held tables.old))) }
    ensures keeps { IfOk result (λ v. KeepsAll (T.held tables.old) (T.held tables.new)) }
    ensures bytes { input.new.bytes ≡ input.old.bytes }
    ensures aligned { IsAligned (align_of book.now.options) input.new }
{
    let boolean = Datatype::Boolean { pattern: false };
    typed_value(alloc, book, input, &boolean, name, tables, meter)
}
