ghost use Rattle.std.specs.Prelude.{◌≡◌, ◌≤◌, ◌%◌, ◌^◌, IfOk};
ghost use Rattle.exi_bits.specs.Bits.{IsAligned};
ghost use Rattle.exi_meter.specs.Metering.{IsWithin};
ghost use Rattle.exi_names.specs.Datatypes.{list, represented};
ghost use Rattle.exi_names.specs.Seen.{items, seen, vals, values_of};
ghost use Rattle.exi_names.specs.declared.val.TheConstants.{MOST_ITEMS};
ghost use Rattle.exi_tables.specs.Growth.{NoneLonger};
ghost use Rattle.exi_tables.specs.Partitions.{IsName, Partitions};
ghost use Rattle.exi_typed.specs.ReadStates.{Goes, GoesOrStops, Leaves, read_state};
ghost use Rattle.exi_values.specs.Readings.{charged_count_at, list_at, string_in};
ghost use Rattle.exi_values.specs.Stops.{HasRoom, IsRoomy, LeavesAfter};
ghost use Rattle.exi_values.specs.Valued.{valued_at};

use crate::charge::charge;
use crate::choice::read_choice;
use crate::plain::{
    read_date, read_fixed, read_floating, read_natural, read_octets, read_small, read_truth,
    read_whole,
};
use exi_bits::{Align, BitIn, Fault, Kind, Stop};
use exi_meter::Meter;
use exi_names::{Alphabet, Datatype, MOST_ITEMS, NameId, Val, ValList};
use exi_tables::Tables;
use exi_typed::{StringRead, read_string, read_value as read_tabled};
use std::alloc::Global;

/// Reads a string of which a miss tells its characters by their places in a set, and adds it where it is missed.
#[tactic(auto, unfolding(crate::specs::Readings::string_in))]
fn read_in_set<T: Tables>(
    alloc: Global,
    input: &mut BitIn<'_>,
    set: &Alphabet,
    align: Align,
    name: NameId,
    tables: &mut T,
    meter: &mut Meter,
) -> Result<Val, Stop>
    requires name { IsName (T.held tables.old) name }
    requires few { NoneLonger (2 ^ 31) (T.held tables.old) }
    requires aligned { IsAligned align input.old }
    ensures read { GoesOrStops (λ v. (seen v, read_state input.new meter.new (T.held tables.new))) meter.new result (string_in set.now align name (read_state input.old meter.old (T.held tables.old))) }
    ensures tables { Leaves result (T.held tables.old) (T.held tables.new) }
    ensures bytes { input.new.bytes ≡ input.old.bytes }
    ensures aligned { IsAligned align input.new }
{
    match read_string(alloc, input, Some(set), align, name, tables, meter)? {
        StringRead::Stands(text) => Ok(Val::Text(text.copy()?)),
        StringRead::Missed(text) => {
            let value = text.copy()?;
            tables.add_value(name, text)?;
            Ok(Val::Text(value))
        }
    }
}

/// Reads the number of a list's items, which is charged. After an `Err` the place is anything.
#[tactic(auto, unfolding(crate::specs::Readings::charged_count_at, crate::specs::Readings::count_at))]
fn read_count(input: &mut BitIn<'_>, meter: &mut Meter) -> Result<u128, Fault>
    ensures read { (p : Partitions) → Goes (λ n. (n, read_state input.new meter.new p)) meter.new result (charged_count_at (read_state input.old meter.old p)) }
    ensures few { IfOk result (λ n. n ≤ MOST_ITEMS) }
    ensures within { IfOk result (λ n. IsWithin meter.new) }
    ensures bytes { input.new.bytes ≡ input.old.bytes }
    ensures phase { input.new.place % 8 ≡ input.old.place % 8 }
{
    let bit = input.at();
    let count = input.unsigned()?;
    if count <= MOST_ITEMS as u128 {
        charge(meter, count, bit)?;
        return Ok(count);
    }
    Err(Fault {
        kind: Kind::ListTooLong,
        bit,
    })
}

/// The value that is a list of these.
fn whole(list: ValList) -> Val
    ensures { seen result ≡ items (values_of (vals list)) }
{
    Val::Items(list)
}

/// Reads a list: the number of its items, and they, each a value of its own.
#[cycle(read)]
#[tactic(auto, unfolding(crate::specs::Readings::list_at))]
fn read_list<T: Tables>(
    alloc: Global,
    input: &mut BitIn<'_>,
    item: &Datatype,
    align: Align,
    name: NameId,
    tables: &mut T,
    meter: &mut Meter,
) -> Result<Val, Stop>
    requires name { IsName (T.held tables.old) name }
    requires room { IsRoomy meter.old (T.held tables.old) }
    requires aligned { IsAligned align input.old }
    ensures read { GoesOrStops (λ v. (seen v, read_state input.new meter.new (T.held tables.new))) meter.new result (list_at (valued_at (represented item.now) align name) (read_state input.old meter.old (T.held tables.old))) }
    ensures tables { LeavesAfter (list (represented item.now)) align name result (read_state input.old meter.old (T.held tables.old)) (T.held tables.new) }
    ensures bytes { input.new.bytes ≡ input.old.bytes }
    ensures aligned { IsAligned align input.new }
{
    let count = read_count(input, meter)?;
    let mut items = ValList::new(alloc);
    for _ in 0..count {
        let value = read_value(alloc, input, item, align, name, tables, meter)?;
        items.push(value)?;
    }
    Ok(whole(items))
}

/// Reads a value of any datatype. After an `Err` the place is anything.
#[cycle(read)]
#[tactic(auto, unfolding(crate::specs::Valued::valued_at))]
#[inline(never)]
fn read_any<T: Tables>(
    alloc: Global,
    input: &mut BitIn<'_>,
    kind: &Datatype,
    align: Align,
    name: NameId,
    tables: &mut T,
    meter: &mut Meter,
) -> Result<Val, Stop>
    requires name { IsName (T.held tables.old) name }
    requires few { NoneLonger (2 ^ 31) (T.held tables.old) }
    requires room { HasRoom (represented kind.now) meter.old (T.held tables.old) }
    requires aligned { IsAligned align input.old }
    ensures read { GoesOrStops (λ v. (seen v, read_state input.new meter.new (T.held tables.new))) meter.new result (valued_at (represented kind.now) align name (read_state input.old meter.old (T.held tables.old))) }
    ensures tables { LeavesAfter (represented kind.now) align name result (read_state input.old meter.old (T.held tables.old)) (T.held tables.new) }
    ensures bytes { input.new.bytes ≡ input.old.bytes }
    ensures aligned { IsAligned align input.new }
{
    match kind {
        Datatype::Small { least, count } => read_small(input, least, *count, align, meter),
        Datatype::Unsigned => read_natural(input, align, meter),
        Datatype::Integer => read_whole(input, align, meter),
        Datatype::Boolean { pattern } => read_truth(input, *pattern, align, meter),
        Datatype::Binary { hex } => read_octets(alloc, input, *hex, align, meter),
        Datatype::Decimal => read_fixed(input, align, meter),
        Datatype::Float => read_floating(input, align, meter),
        Datatype::Moment(moment) => read_date(input, *moment, align, meter),
        Datatype::List(item) => read_list(alloc, input, item, align, name, tables, meter),
        Datatype::Choice { base, values } => read_choice(alloc, input, base, values, align, meter),
        Datatype::Chars(set) => read_in_set(alloc, input, set, align, name, tables, meter),
        Datatype::Text | Datatype::Name { .. } => {
            read_tabled(alloc, input, kind, align, name, tables, meter)
        }
    }
}

/// The same, with its answer in a room that is made on this way alone.
#[cycle(read)]
#[inline(always)]
fn read_apart<T: Tables>(
    alloc: Global,
    input: &mut BitIn<'_>,
    kind: &Datatype,
    align: Align,
    name: NameId,
    tables: &mut T,
    meter: &mut Meter,
) -> Result<Val, Stop>
    requires name { IsName (T.held tables.old) name }
    requires few { NoneLonger (2 ^ 31) (T.held tables.old) }
    requires room { HasRoom (represented kind.now) meter.old (T.held tables.old) }
    requires aligned { IsAligned align input.old }
    ensures read { GoesOrStops (λ v. (seen v, read_state input.new meter.new (T.held tables.new))) meter.new result (valued_at (represented kind.now) align name (read_state input.old meter.old (T.held tables.old))) }
    ensures tables { LeavesAfter (represented kind.now) align name result (read_state input.old meter.old (T.held tables.old)) (T.held tables.new) }
    ensures bytes { input.new.bytes ≡ input.old.bytes }
    ensures aligned { IsAligned align input.new }
{
    match read_any(alloc, input, kind, align, name, tables, meter) {
        Ok(value) => Ok(value),
        Err(stop) => Err(stop),
    }
}

/// Reads a value of a datatype under a name, whose places exist (EXI 1.0, sections 7.1 and 7.3.3), and adds what is
/// missed to the tables.
///
/// # Errors
///
/// The place may then be any, and what was charged before a fault stays charged. The tables are unchanged; of a list
/// they may have what the items before added, and where memory ran out they may have the URI of a name too.
///
/// - `Short`, `TooWide`, `BadFloat`, `BadChar` and `BadMoment` at the item that is so.
/// - `BadPlace` at the place of a text, of an enumerated value or of an integer of a bounded range that is not there,
///   and in a byte-aligned stream at a bit above 1.
/// - `ListTooLong` at the number of a list's items, where there are more than [`MOST_ITEMS`].
/// - `TextLimit` where what is charged would pass the limit.
/// - `Memory` where memory is refused.
#[cycle(read)]
#[tactic(auto, unfolding(crate::specs::Valued::valued_at))]
pub fn read_value<T: Tables>(
    alloc: Global,
    input: &mut BitIn<'_>,
    kind: &Datatype,
    align: Align,
    name: NameId,
    tables: &mut T,
    meter: &mut Meter,
) -> Result<Val, Stop>
    requires name { IsName (T.held tables.old) name }
    requires few { NoneLonger (2 ^ 31) (T.held tables.old) }
    requires room { HasRoom (represented kind.now) meter.old (T.held tables.old) }
    requires aligned { IsAligned align input.old }
    ensures read { GoesOrStops (λ v. (seen v, read_state input.new meter.new (T.held tables.new))) meter.new result (valued_at (represented kind.now) align name (read_state input.old meter.old (T.held tables.old))) }
    ensures tables { LeavesAfter (represented kind.now) align name result (read_state input.old meter.old (T.held tables.old)) (T.held tables.new) }
    ensures bytes { input.new.bytes ≡ input.old.bytes }
    ensures aligned { IsAligned align input.new }
{
    // the frequent ones, each straight
    match kind {
        Datatype::Small { least, count } => read_small(input, least, *count, align, meter),
        Datatype::Unsigned => read_natural(input, align, meter),
        Datatype::Integer => read_whole(input, align, meter),
        Datatype::Boolean { pattern } => read_truth(input, *pattern, align, meter),
        Datatype::Binary { hex } => read_octets(alloc, input, *hex, align, meter),
        Datatype::Moment(moment) => read_date(input, *moment, align, meter),
        Datatype::Decimal
        | Datatype::Float
        | Datatype::List(_)
        | Datatype::Choice { .. }
        | Datatype::Chars(_)
        | Datatype::Text
        | Datatype::Name { .. } => read_apart(alloc, input, kind, align, name, tables, meter),
    }
}
