ghost use Rattle.std.specs.Prelude.{◌≡◌, ◌^◌};
ghost use Rattle.exi_bits.specs.Bits.{IsAligned};
ghost use Rattle.exi_names.specs.Datatypes.{represented};
ghost use Rattle.exi_names.specs.Seen.{seen};
ghost use Rattle.exi_tables.specs.Growth.{NoneLonger};
ghost use Rattle.exi_names.specs.declared.names.NameId.{NameId};
ghost use Rattle.exi_tables.specs.Partitions.{IsName};
ghost use Rattle.exi_typed.specs.ReadStates.{GoesOrStops, Leaves, read_state};
ghost use Rattle.exi_typed.specs.Items.{IsTabled, item_at, qualified, string, tabled};

use crate::charge::charge;
use crate::parts::read_parts;
use crate::strings::{StringRead, read_string};
use exi_bits::{Align, BitIn, Stop};
use exi_meter::Meter;
use exi_names::{Datatype, NameId, Val};
use exi_tables::Tables;
use std::alloc::Global;

/// Reads a string value of a name, in memory of its own, and adds it where it is missed.
#[tactic(auto, unfolding(crate::specs::Items::item_at))]
fn read_text<T: Tables>(
    alloc: Global,
    input: &mut BitIn<'_>,
    align: Align,
    name: NameId,
    tables: &mut T,
    meter: &mut Meter,
) -> Result<Val, Stop>
    requires name { IsName (T.held tables.old) name }
    requires few { NoneLonger (2 ^ 31) (T.held tables.old) }
    requires aligned { IsAligned align input.old }
    ensures read { GoesOrStops (λ v. (seen v, read_state input.new meter.new (T.held tables.new))) meter.new result (item_at string align name (read_state input.old meter.old (T.held tables.old))) }
    ensures tables { Leaves result (T.held tables.old) (T.held tables.new) }
    ensures bytes { input.new.bytes ≡ input.old.bytes }
    ensures aligned { IsAligned align input.new }
{
    match read_string(alloc, input, None, align, name, tables, meter)? {
        StringRead::Stands(text) => Ok(Val::Text(text.copy()?)),
        StringRead::Missed(text) => {
            let value = text.copy()?;
            tables.add_value(name, text)?;
            Ok(Val::Text(value))
        }
    }
}

/// Reads a value that is a name, in memory of its own, and adds what is missed.
#[tactic(auto, unfolding(crate::specs::Items::item_at, crate::specs::NameValues::name_value_at))]
fn read_named<T: Tables>(
    alloc: Global,
    input: &mut BitIn<'_>,
    keep: bool,
    align: Align,
    tables: &mut T,
    meter: &mut Meter,
) -> Result<Val, Stop>
    requires few { NoneLonger (2 ^ 31) (T.held tables.old) }
    requires aligned { IsAligned align input.old }
    ensures read { (name : NameId) → GoesOrStops (λ v. (seen v, read_state input.new meter.new (T.held tables.new))) meter.new result (item_at (qualified keep) align name (read_state input.old meter.old (T.held tables.old))) }
    ensures tables { Leaves result (T.held tables.old) (T.held tables.new) }
    ensures bytes { input.new.bytes ≡ input.old.bytes }
    ensures aligned { IsAligned align input.new }
{
    charge(meter, 1, input.at())?;
    let read = read_parts(alloc, input, keep, align, tables, meter)?;
    let name = read.copy(tables)?;
    read.add(tables)?;
    Ok(Val::Name(name))
}

/// Reads a value under a name, whose places exist (EXI 1.0, sections 7.1 and 7.3.3), and adds what is missed to
/// the tables. The datatype has to be one of those whose items go through the string tables:
/// [`Datatype::Text`] and [`Datatype::Name`].
///
/// # Errors
///
/// The place may then be any, and what was charged before a fault stays charged. After a fault the tables are
/// unchanged; where memory ran out they may have the URI of a name.
///
/// - `Short`, `TooWide` and `BadChar` at the item that is so.
/// - `BadPlace` at the place of a text that is not there, or is live no longer.
/// - `TextLimit` where a text would pass the limit: at its first character, or behind its place.
/// - `Memory` where memory is refused.
pub fn read_value<T: Tables>(
    alloc: Global,
    input: &mut BitIn<'_>,
    kind: &Datatype,
    align: Align,
    name: NameId,
    tables: &mut T,
    meter: &mut Meter,
) -> Result<Val, Stop>
    requires kind { IsTabled (represented kind.now) }
    requires name { IsName (T.held tables.old) name }
    requires few { NoneLonger (2 ^ 31) (T.held tables.old) }
    requires aligned { IsAligned align input.old }
    ensures read { GoesOrStops (λ v. (seen v, read_state input.new meter.new (T.held tables.new))) meter.new result (item_at (tabled (represented kind.now)) align name (read_state input.old meter.old (T.held tables.old))) }
    ensures tables { Leaves result (T.held tables.old) (T.held tables.new) }
    ensures bytes { input.new.bytes ≡ input.old.bytes }
    ensures aligned { IsAligned align input.new }
{
    match kind {
        Datatype::Text => read_text(alloc, input, align, name, tables, meter),
        Datatype::Name { prefixes } => read_named(alloc, input, *prefixes, align, tables, meter),
        Datatype::Small { .. }
        | Datatype::Unsigned
        | Datatype::Integer
        | Datatype::Boolean { .. }
        | Datatype::Binary { .. }
        | Datatype::Decimal
        | Datatype::Float
        | Datatype::Moment(_)
        | Datatype::List(_)
        | Datatype::Choice { .. }
        | Datatype::Chars(_) => unreachable!(),
    }
}
