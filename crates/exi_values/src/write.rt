ghost use Rattle.std.specs.Prelude.{◌≡◌, ◌++◌, ◌%◌, OnOk, OnErr, IsTrue, length};
ghost use Rattle.exi_bits.specs.Bits.{bits};
ghost use Rattle.exi_bits.specs.Unsigned.{shortest};
ghost use Rattle.exi_bits.specs.Written.{IsWholeBytes};
ghost use Rattle.exi_items.specs.Fronts.{HoldsFront};
ghost use Rattle.exi_names.specs.Datatypes.{chars, list, represented};
ghost use Rattle.exi_names.specs.Forms.{AreOf, IsOf, length_of};
ghost use Rattle.exi_names.specs.Seen.{items, seen, vals, values_of};
ghost use Rattle.exi_tables.specs.Partitions.{IsName};
ghost use Rattle.exi_values.specs.WriteStops.{HasRoomFor, HaveRoomFor, LeavesWritten};
ghost use Rattle.exi_values.specs.Written.{after_list, after_row, after_set, after_valued, has_xml, have_xml, list_bits, row_bits, set_bits, valued_bits};

use crate::put::{
    write_choice, write_date, write_fixed, write_floating, write_natural, write_octets,
    write_small, write_truth, write_whole,
};
use exi_bits::{Align, BitOut};
use exi_names::{Alphabet, Datatype, NameId, Val, ValList};
use exi_tables::Tables;
use exi_typed::{write_string, write_value as write_tabled};
use std::alloc::{AllocError, Global};

/// Writes a string of which a miss tells its characters by their places in a set, and adds it where it is missed.
fn write_in_set<T: Tables>(
    alloc: Global,
    out: &mut BitOut,
    set: &Alphabet,
    value: &Val,
    align: Align,
    name: NameId,
    tables: &mut T,
) -> Result<(), AllocError>
    requires form { IsOf (chars set.now) (seen value.now) }
    requires xml { IsTrue (has_xml (seen value.now)) }
    requires name { IsName (T.held tables.old) name }
    requires few { HasRoomFor (chars set.now) (seen value.now) (T.held tables.old) }
    requires aligned { IsWholeBytes align out.old }
    ensures ok { OnOk result (out.new ≡ out.old ++ set_bits set.now align (T.held tables.old) name (seen value.now)) }
    ensures tables { OnOk result (T.held tables.new ≡ after_set (T.held tables.old) name (seen value.now)) }
    ensures err { OnErr result (HoldsFront out.old (set_bits set.now align (T.held tables.old) name (seen value.now)) out.new) }
    ensures same { OnErr result (T.held tables.new ≡ T.held tables.old) }
    ensures aligned { IsWholeBytes align out.new }
{
    let Val::Text(text) = value else {
        unreachable!();
    };
    write_string(alloc, out, text, Some(set), align, name, tables)
}

/// Writes values one after another.
#[cycle(write)]
fn write_items<T: Tables>(
    alloc: Global,
    out: &mut BitOut,
    item: &Datatype,
    values: &ValList,
    align: Align,
    name: NameId,
    tables: &mut T,
) -> Result<(), AllocError>
    requires form { AreOf (represented item.now) (values_of (vals values.now)) }
    requires xml { IsTrue (have_xml (values_of (vals values.now))) }
    requires name { IsName (T.held tables.old) name }
    requires few { HaveRoomFor (represented item.now) (values_of (vals values.now)) (T.held tables.old) }
    requires aligned { IsWholeBytes align out.old }
    ensures ok { OnOk result (out.new ≡ out.old ++ row_bits (valued_bits (represented item.now) align name) (after_valued (represented item.now) name) (T.held tables.old) (values_of (vals values.now))) }
    ensures tables { OnOk result (T.held tables.new ≡ after_row (after_valued (represented item.now) name) (T.held tables.old) (values_of (vals values.now))) }
    ensures err { OnErr result (HoldsFront out.old (row_bits (valued_bits (represented item.now) align name) (after_valued (represented item.now) name) (T.held tables.old) (values_of (vals values.now))) out.new) }
    ensures left { OnErr result (LeavesWritten (list (represented item.now)) name (items (values_of (vals values.now))) (T.held tables.old) (T.held tables.new)) }
    ensures aligned { IsWholeBytes align out.new }
{
    for value in &values.items {
        write_value(alloc, out, item, value, align, name, tables)?;
    }
    Ok(())
}

/// Writes the number of a list's items.
fn write_count(out: &mut BitOut, values: &ValList) -> Result<(), AllocError>
    ensures ok { OnOk result (out.new ≡ out.old ++ bits (shortest (length_of (values_of (vals values.now))))) }
    ensures err { OnErr result (out.new ≡ out.old) }
    ensures phase { length out.new % 8 ≡ length out.old % 8 }
{
    out.unsigned(values.as_slice().len() as u128)
}

/// Writes the number of values, and they one after another.
#[cycle(write)]
fn write_values<T: Tables>(
    alloc: Global,
    out: &mut BitOut,
    item: &Datatype,
    values: &ValList,
    align: Align,
    name: NameId,
    tables: &mut T,
) -> Result<(), AllocError>
    requires form { AreOf (represented item.now) (values_of (vals values.now)) }
    requires xml { IsTrue (have_xml (values_of (vals values.now))) }
    requires name { IsName (T.held tables.old) name }
    requires few { HaveRoomFor (represented item.now) (values_of (vals values.now)) (T.held tables.old) }
    requires aligned { IsWholeBytes align out.old }
    ensures ok { OnOk result (out.new ≡ out.old ++ list_bits (valued_bits (represented item.now) align name) (after_valued (represented item.now) name) (T.held tables.old) (items (values_of (vals values.now)))) }
    ensures tables { OnOk result (T.held tables.new ≡ after_list (after_valued (represented item.now) name) (T.held tables.old) (items (values_of (vals values.now)))) }
    ensures err { OnErr result (HoldsFront out.old (list_bits (valued_bits (represented item.now) align name) (after_valued (represented item.now) name) (T.held tables.old) (items (values_of (vals values.now)))) out.new) }
    ensures left { OnErr result (LeavesWritten (list (represented item.now)) name (items (values_of (vals values.now))) (T.held tables.old) (T.held tables.new)) }
    ensures aligned { IsWholeBytes align out.new }
{
    write_count(out, values)?;
    write_items(alloc, out, item, values, align, name, tables)
}

/// Writes a list: the number of its items, and they, each a value of its own.
#[cycle(write)]
#[tactic(auto, unfolding(crate::specs::Written::valued_bits, crate::specs::Written::after_valued))]
fn write_list<T: Tables>(
    alloc: Global,
    out: &mut BitOut,
    item: &Datatype,
    value: &Val,
    align: Align,
    name: NameId,
    tables: &mut T,
) -> Result<(), AllocError>
    requires form { IsOf (list (represented item.now)) (seen value.now) }
    requires xml { IsTrue (has_xml (seen value.now)) }
    requires name { IsName (T.held tables.old) name }
    requires few { HasRoomFor (list (represented item.now)) (seen value.now) (T.held tables.old) }
    requires aligned { IsWholeBytes align out.old }
    ensures ok { OnOk result (out.new ≡ out.old ++ valued_bits (list (represented item.now)) align name (T.held tables.old) (seen value.now)) }
    ensures tables { OnOk result (T.held tables.new ≡ after_valued (list (represented item.now)) name (T.held tables.old) (seen value.now)) }
    ensures err { OnErr result (HoldsFront out.old (valued_bits (list (represented item.now)) align name (T.held tables.old) (seen value.now)) out.new) }
    ensures left { OnErr result (LeavesWritten (list (represented item.now)) name (seen value.now) (T.held tables.old) (T.held tables.new)) }
    ensures aligned { IsWholeBytes align out.new }
{
    let Val::Items(values) = value else {
        unreachable!();
    };
    write_values(alloc, out, item, values, align, name, tables)
}

/// Writes a value of a datatype under a name, whose places exist (EXI 1.0, sections 7.1 and 7.3.3), and adds what is
/// missed to the tables: a text that stands in its partition is told by its least place there, an enumerated value by
/// its least place, and an Unsigned Integer by its shortest octets. The value has to be of the datatype's form, and its
/// characters XML characters. Under [`Align::Bytes`] there have to be whole bytes of bits.
///
/// # Errors
///
/// Where there is no memory. The bits then end with a front of the value's bits, maybe none. The tables are unchanged
/// or have the URI of a name; of a list they may have what the items before added too.
#[cycle(write)]
#[tactic(auto, unfolding(crate::specs::Written::valued_bits, crate::specs::Written::after_valued))]
pub fn write_value<T: Tables>(
    alloc: Global,
    out: &mut BitOut,
    kind: &Datatype,
    value: &Val,
    align: Align,
    name: NameId,
    tables: &mut T,
) -> Result<(), AllocError>
    requires form { IsOf (represented kind.now) (seen value.now) }
    requires xml { IsTrue (has_xml (seen value.now)) }
    requires name { IsName (T.held tables.old) name }
    requires few { HasRoomFor (represented kind.now) (seen value.now) (T.held tables.old) }
    requires aligned { IsWholeBytes align out.old }
    ensures ok { OnOk result (out.new ≡ out.old ++ valued_bits (represented kind.now) align name (T.held tables.old) (seen value.now)) }
    ensures tables { OnOk result (T.held tables.new ≡ after_valued (represented kind.now) name (T.held tables.old) (seen value.now)) }
    ensures err { OnErr result (HoldsFront out.old (valued_bits (represented kind.now) align name (T.held tables.old) (seen value.now)) out.new) }
    ensures left { OnErr result (LeavesWritten (represented kind.now) name (seen value.now) (T.held tables.old) (T.held tables.new)) }
    ensures aligned { IsWholeBytes align out.new }
{
    match kind {
        Datatype::Small { least, count } => write_small(out, least, *count, value, align),
        Datatype::Unsigned => write_natural(out, value, align),
        Datatype::Integer => write_whole(out, value, align),
        Datatype::Boolean { pattern } => write_truth(out, *pattern, value, align),
        Datatype::Binary { hex } => write_octets(out, *hex, value, align),
        Datatype::Decimal => write_fixed(out, value, align),
        Datatype::Float => write_floating(out, value, align),
        Datatype::Moment(moment) => write_date(out, *moment, value, align),
        Datatype::List(item) => write_list(alloc, out, item, value, align, name, tables),
        Datatype::Choice { base, values } => write_choice(out, base, values, value, align),
        Datatype::Chars(set) => write_in_set(alloc, out, set, value, align, name, tables),
        Datatype::Text | Datatype::Name { .. } => {
            write_tabled(alloc, out, kind, value, align, name, tables)
        }
    }
}
