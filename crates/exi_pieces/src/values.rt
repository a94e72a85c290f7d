ghost use Rattle.std.specs.Prelude.{◌≡◌, ◌++◌, [], ◌∷◌, Ok, OnOk, true, if◌then◌else◌};
ghost use Rattle.exi_bits.specs.Written.{IsWholeBytes};
ghost use Rattle.exi_gram.specs.Switches.{align_of};
ghost use Rattle.exi_meter.specs.Metering.{Metering};
ghost use Rattle.exi_names.specs.Datatypes.{list, represented};
ghost use Rattle.exi_names.specs.Forms.{AreOf, IsOf, length_of};
ghost use Rattle.exi_names.specs.Seen.{seen, vals, values_of};
ghost use Rattle.exi_tables.specs.Partitions.{IsName};
ghost use Rattle.exi_toll.specs.Charges.{charge, is_within};
ghost use Rattle.exi_values.specs.Readings.{units_in};
ghost use Rattle.exi_values.specs.Stops.{IsRoomy};
ghost use Rattle.exi_values.specs.Valued.{is_measured};
ghost use Rattle.exi_values.specs.Written.{after_valued, valued_bits};
ghost use Rattle.exi_values.specs.WrittenLaws.{row_units, valued_units};
ghost use Rattle.exi_writing.specs.Pieces.{can_all_be_valued, can_be_valued};

use exi_bits::BitOut;
use exi_gram::Options;
use exi_names::{Datatype, NameId, Val, ValList};
use exi_tables::Tables;
use exi_toll::Toll;
use exi_values::write_value;
use std::alloc::{AllocError, Global};

/// How much a text or octets are charged; any other value one unit.
fn units_in(value: &Val) -> u64
    ensures { result ≡ units_in (seen value.now) }
{
    match value {
        Val::Text(text) => text.count(),
        Val::Bin { octets, .. } => octets.as_slice().len() as u64,
        Val::Bool { .. }
        | Val::Int(_)
        | Val::Dec { .. }
        | Val::Flo { .. }
        | Val::Mom(_)
        | Val::Items(_)
        | Val::Name(_) => 1,
    }
}

/// Whether the values of an enumeration with this base are texts or octets.
fn is_measured(base: &Datatype) -> bool
    ensures { result ≡ is_measured (represented base.now) }
{
    match base {
        Datatype::Text | Datatype::Chars(_) | Datatype::Binary { .. } => true,
        Datatype::Choice { base, .. } => is_measured(base),
        Datatype::Small { .. }
        | Datatype::Unsigned
        | Datatype::Integer
        | Datatype::Boolean { .. }
        | Datatype::Decimal
        | Datatype::Float
        | Datatype::Moment(_)
        | Datatype::List(_)
        | Datatype::Name { .. } => false,
    }
}

/// Charges values one after another.
#[cycle(pay)]
fn pay_items(toll: &mut Toll, item: &Datatype, values: &ValList)
    requires form { AreOf (represented item.now) (values_of (vals values.now)) }
    requires spelled { can_all_be_valued (values_of (vals values.now)) ≡ true }
    ensures { toll.new ≡ charge (row_units (valued_units (represented item.now)) (values_of (vals values.now))) toll.old }
{
    for value in &values.items {
        pay_value(toll, item, value);
    }
}

/// Charges the number of a list's items.
fn pay_count(toll: &mut Toll, values: &ValList)
    ensures { toll.new ≡ charge (length_of (values_of (vals values.now)) ∷ []) toll.old }
{
    toll.text(values.as_slice().len() as u64);
}

/// Charges a list: the number of its items, and they.
#[cycle(pay)]
#[tactic(auto, unfolding(exi_values::specs::WrittenLaws::valued_units))]
fn pay_list(toll: &mut Toll, item: &Datatype, value: &Val)
    requires form { IsOf (list (represented item.now)) (seen value.now) }
    requires spelled { can_be_valued (seen value.now) ≡ true }
    ensures { toll.new ≡ charge (valued_units (list (represented item.now)) (seen value.now)) toll.old }
{
    let Val::Items(values) = value else {
        unreachable!();
    };
    pay_count(toll, values);
    pay_items(toll, item, values);
}

/// Charges a value of a datatype.
#[cycle(pay)]
#[tactic(auto, unfolding(exi_values::specs::WrittenLaws::valued_units))]
fn pay_value(toll: &mut Toll, datatype: &Datatype, value: &Val)
    requires form { IsOf (represented datatype.now) (seen value.now) }
    requires spelled { can_be_valued (seen value.now) ≡ true }
    ensures { toll.new ≡ charge (valued_units (represented datatype.now) (seen value.now)) toll.old }
{
    match datatype {
        Datatype::List(item) => pay_list(toll, item, value),
        Datatype::Binary { .. } | Datatype::Text | Datatype::Chars(_) => toll.text(units_in(value)),
        Datatype::Choice { base, .. } => {
            if is_measured(base) {
                toll.text(units_in(value));
            } else {
                toll.text(1);
            }
        }
        Datatype::Small { .. }
        | Datatype::Unsigned
        | Datatype::Integer
        | Datatype::Boolean { .. }
        | Datatype::Decimal
        | Datatype::Float
        | Datatype::Moment(_)
        | Datatype::Name { .. } => toll.text(1),
    }
}

/// Writes a value of a datatype under a name. Its charges are taken first, in units, and where one of them or of those before
/// passes its limit nothing is written. The value has to be of the datatype's form and have a spelling, and the tables have to
/// have room for what may still be charged.
///
/// # Errors
///
/// `AllocError` where memory is refused.
pub fn put_value<T: Tables>(
    alloc: Global,
    options: &Options,
    out: &mut BitOut,
    toll: &mut Toll,
    tables: &mut T,
    datatype: &Datatype,
    name: NameId,
    value: &Val,
) -> Result<(), AllocError>
    requires form { IsOf (represented datatype.now) (seen value.now) }
    requires spelled { can_be_valued (seen value.now) ≡ true }
    requires name { IsName (T.held tables.old) name }
    requires room { (m : Metering) → toll.old ≡ Ok m → IsRoomy m (T.held tables.old) }
    requires aligned { IsWholeBytes (align_of options.now) out.old }
    ensures toll { OnOk result (toll.new ≡ charge (valued_units (represented datatype.now) (seen value.now)) toll.old) }
    ensures bits { OnOk result (out.new ≡ (if is_within toll.new then out.old ++ valued_bits (represented datatype.now) (align_of options.now) name (T.held tables.old) (seen value.now) else out.old)) }
    ensures tables { OnOk result (T.held tables.new ≡ (if is_within toll.new then after_valued (represented datatype.now) name (T.held tables.old) (seen value.now) else T.held tables.old)) }
    ensures aligned { IsWholeBytes (align_of options.now) out.new }
{
    pay_value(toll, datatype, value);
    if !toll.is_within() {
        return Ok(());
    }
    write_value(alloc, out, datatype, value, options.align(), name, tables)?;
    Ok(())
}
