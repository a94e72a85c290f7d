ghost use Rattle.std.specs.Prelude.{◌≡◌, ◌++◌, ◌<◌, ◌^◌, None, IsTrue, OnOk, OnErr, length};
ghost use Rattle.std.specs.Option.{option_copied};
ghost use Rattle.exi_bits.specs.Written.{IsWholeBytes};
ghost use Rattle.exi_items.specs.Fronts.{HoldsFront};
ghost use Rattle.exi_names.specs.Datatypes.{represented};
ghost use Rattle.exi_names.specs.Forms.{IsOf};
ghost use Rattle.exi_names.specs.Seen.{seen};
ghost use Rattle.exi_tables.specs.Growth.{NoneLonger};
ghost use Rattle.exi_tables.specs.Values.{StandsAs};
ghost use Rattle.exi_tables.specs.Partitions.{IsName, least_place, name_values, values};
ghost use Rattle.exi_text.specs.Literals.{all_xml};
ghost use Rattle.exi_typed.specs.ReadStates.{MayHaveUri};
ghost use Rattle.exi_typed.specs.Items.{IsTabled};
ghost use Rattle.exi_typed.specs.Written.{IsWithin, after_item, after_string, is_xml_value, item_bits, own_place, string_bits};

use crate::put::{put_known, put_place, put_spelled};
use crate::write_names::write_name;
use exi_bits::{Align, BitOut};
use exi_names::{Alphabet, Datatype, NameId, Txt, Val};
use exi_tables::{Standing, Tables};
use std::alloc::{AllocError, Global};

/// Where a text stands: at its least place among the values of its name, and else at its least place among all values.
fn standing<T: Tables>(tables: &T, name: NameId, text: &Txt) -> Standing
    requires name { IsName (T.held tables.now) name }
    ensures stands { StandsAs result (own_place (T.held tables.now) name text.now) (least_place (values (T.held tables.now)) text.now) }
    ensures within { IsWithin (T.held tables.now) name result }
{
    let found = tables.value_standing(name, text);
    if let Standing::Own(place) = found {
        if place >= tables.name_values(name) {
            return standing_among_all(tables, text);
        }
    }
    found
}

/// Where a text stands among all values, where it has no place among those of its name.
#[cold]
#[inline(never)]
fn standing_among_all<T: Tables>(tables: &T, text: &Txt) -> Standing
    ensures stands { StandsAs result None (least_place (values (T.held tables.now)) text.now) }
{
    match tables.value_place(text) {
        Some(place) => Standing::Global(place),
        None => Standing::Missing,
    }
}

/// Writes a string value of a name (EXI 1.0, sections 7.1.10 and 7.3.3), with a set of characters or without: as a
/// hit among the name's own values where it stands there, else as a hit among all, at its least place, else as a
/// miss, which is added. Each character has to be an XML character, and under [`Align::Bytes`] there have to be whole
/// bytes of bits.
///
/// # Errors
///
/// Where there is no memory. The bits then end with a front of the value's bits, maybe none, and the tables are
/// unchanged.
pub fn write_string<T: Tables>(
    alloc: Global,
    out: &mut BitOut,
    text: &Txt,
    set: Option<&Alphabet>,
    align: Align,
    name: NameId,
    tables: &mut T,
) -> Result<(), AllocError>
    requires xml { IsTrue (all_xml text.now) }
    requires name { IsName (T.held tables.old) name }
    requires few { NoneLonger (2 ^ 31) (T.held tables.old) }
    requires aligned { IsWholeBytes align out.old }
    ensures ok { OnOk result (out.new ≡ out.old ++ string_bits (option_copied set.entry) align (T.held tables.old) name text.now) }
    ensures tables { OnOk result (T.held tables.new ≡ after_string (T.held tables.old) name text.now) }
    ensures err { OnErr result (HoldsFront out.old (string_bits (option_copied set.entry) align (T.held tables.old) name text.now) out.new) }
    ensures same { OnErr result (T.held tables.new ≡ T.held tables.old) }
    ensures aligned { IsWholeBytes align out.new }
{
    match standing(tables, name, text) {
        Standing::Own(place) => {
            let count = tables.name_values(name);
            put_known(out, u64::from(place), u64::from(count), align)
        }
        Standing::Global(place) => {
            let count = tables.values();
            out.unsigned(1)?;
            put_place(out, u64::from(place), u64::from(count), align)
        }
        Standing::Missing => {
            put_spelled(alloc, out, text, 2, set, align)?;
            tables.add_value(name, text.copy()?)
        }
    }
}

/// Writes a value under a name, whose places exist (EXI 1.0, sections 7.1 and 7.3.3), and adds what is missed to the
/// tables. The datatype has to be one of those whose items go through the string tables, [`Datatype::Text`] and
/// [`Datatype::Name`], the value of its form, and its characters XML characters. Under [`Align::Bytes`] there have to be
/// whole bytes of bits.
///
/// # Errors
///
/// Where there is no memory. The bits then end with a front of the value's bits, maybe none, and the tables may have the
/// URI of a name.
pub fn write_value<T: Tables>(
    alloc: Global,
    out: &mut BitOut,
    kind: &Datatype,
    value: &Val,
    align: Align,
    name: NameId,
    tables: &mut T,
) -> Result<(), AllocError>
    requires kind { IsTabled (represented kind.now) }
    requires form { IsOf (represented kind.now) (seen value.now) }
    requires xml { IsTrue (is_xml_value (seen value.now)) }
    requires name { IsName (T.held tables.old) name }
    requires few { NoneLonger (2 ^ 31) (T.held tables.old) }
    requires aligned { IsWholeBytes align out.old }
    ensures ok { OnOk result (out.new ≡ out.old ++ item_bits (represented kind.now) align (T.held tables.old) name (seen value.now)) }
    ensures tables { OnOk result (T.held tables.new ≡ after_item (represented kind.now) (T.held tables.old) name (seen value.now)) }
    ensures err { OnErr result (HoldsFront out.old (item_bits (represented kind.now) align (T.held tables.old) name (seen value.now)) out.new) }
    ensures may { OnErr result (MayHaveUri (T.held tables.old) (T.held tables.new)) }
    ensures aligned { IsWholeBytes align out.new }
{
    match kind {
        Datatype::Text => {
            let Val::Text(text) = value else {
                unreachable!();
            };
            write_string(alloc, out, text, None, align, name, tables)
        }
        Datatype::Name { prefixes } => {
            let Val::Name(found) = value else {
                unreachable!();
            };
            write_name(alloc, out, *prefixes, found.as_ref(), align, tables)?;
            Ok(())
        }
        Datatype::Small { .. }
        | Datatype::Unsigned
        | Datatype::Integer
        | Datatype::Boolean { .. }
        | Datatype::Binary { .. }
        | Datatype::Decimal
        | Datatype::Float
        | Datatype::Moment(_)
        | Datatype::List(_)
        | Datatype::Choice { .. }
        | Datatype::Chars(_) => unreachable!(),
    }
}
