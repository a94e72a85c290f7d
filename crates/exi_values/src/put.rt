ghost use Rattle.std.specs.Prelude.{◌≡◌, ◌++◌, ◌<◌, OnOk, OnErr, IsTrue};
ghost use Rattle.exi_bits.specs.Bits.{number};
ghost use Rattle.exi_bits.specs.Widths.{width_for};
ghost use Rattle.exi_bits.specs.Written.{IsWholeBytes};
ghost use Rattle.exi_items.specs.Fronts.{HoldsFront};
ghost use Rattle.exi_names.specs.Datatypes.{boolean, binary, choice, decimal, float, integer, moment, represented, small, unsigned};
ghost use Rattle.exi_names.specs.Forms.{IsOf, is_within};
ghost use Rattle.exi_names.specs.Seen.{seen, vals};
ghost use Rattle.exi_scalar.specs.Scalars.{binary_bits, boolean_bits, decimal_bits, float_bits};
ghost use Rattle.exi_values.specs.Written.{choice_bits, dated_bits, natural_bits, place_from, small_bits, whole_bits};

use exi_bits::{Align, BitOut, bits_for};
use exi_moment::write_moment;
use exi_names::{Datatype, MomentKind, Val, ValList, Whole};
use exi_scalar::{write_binary, write_boolean, write_decimal, write_float, write_integer};
use std::alloc::AllocError;

/// Adds a place among so many.
fn put_place(out: &mut BitOut, place: u64, count: u64, align: Align) -> Result<(), AllocError>
    requires within { place < count }
    requires aligned { IsWholeBytes align out.old }
    ensures ok { OnOk result (out.new ≡ out.old ++ number (width_for count) align place) }
    ensures err { OnErr result (out.new ≡ out.old) }
    ensures aligned { IsWholeBytes align out.new }
{
    out.put(place, bits_for(count), align)
}

/// How far a number of a bounded range is from the least one.
fn place_from(least: &i128, count: u16, number: Whole) -> u64
    requires range { IsTrue (is_within least.now count number) }
    ensures place { result ≡ place_from least.now number }
    ensures within { result < count }
{
    let far = least.unsigned_abs();
    let place = if *least >= 0 {
        number.size - far
    } else if number.minus {
        far - number.size
    } else {
        number.size + far
    };
    place as u64
}

/// Writes an integer of a bounded range, by its place in it.
pub fn write_small(
    out: &mut BitOut,
    least: &i128,
    count: u16,
    value: &Val,
    align: Align,
) -> Result<(), AllocError>
    requires form { IsOf (small least.now count) (seen value.now) }
    requires aligned { IsWholeBytes align out.old }
    ensures ok { OnOk result (out.new ≡ out.old ++ small_bits least.now count align (seen value.now)) }
    ensures err { OnErr result (HoldsFront out.old (small_bits least.now count align (seen value.now)) out.new) }
    ensures aligned { IsWholeBytes align out.new }
{
    let Val::Int(number) = value else {
        unreachable!();
    };
    put_place(
        out,
        place_from(least, count, *number),
        u64::from(count),
        align,
    )
}

/// Writes an integer that is not negative.
pub fn write_natural(out: &mut BitOut, value: &Val, align: Align) -> Result<(), AllocError>
    requires form { IsOf unsigned (seen value.now) }
    requires aligned { IsWholeBytes align out.old }
    ensures ok { OnOk result (out.new ≡ out.old ++ natural_bits (seen value.now)) }
    ensures err { OnErr result (HoldsFront out.old (natural_bits (seen value.now)) out.new) }
    ensures aligned { IsWholeBytes align out.new }
{
    let Val::Int(number) = value else {
        unreachable!();
    };
    out.unsigned(number.size)
}

/// Writes an integer.
pub fn write_whole(out: &mut BitOut, value: &Val, align: Align) -> Result<(), AllocError>
    requires form { IsOf integer (seen value.now) }
    requires aligned { IsWholeBytes align out.old }
    ensures ok { OnOk result (out.new ≡ out.old ++ whole_bits align (seen value.now)) }
    ensures err { OnErr result (HoldsFront out.old (whole_bits align (seen value.now)) out.new) }
    ensures aligned { IsWholeBytes align out.new }
{
    let Val::Int(number) = value else {
        unreachable!();
    };
    write_integer(out, *number, align)
}

/// Writes a boolean, with a pattern or without.
pub fn write_truth(
    out: &mut BitOut,
    pattern: bool,
    value: &Val,
    align: Align,
) -> Result<(), AllocError>
    requires form { IsOf (boolean pattern) (seen value.now) }
    requires aligned { IsWholeBytes align out.old }
    ensures ok { OnOk result (out.new ≡ out.old ++ boolean_bits pattern align (seen value.now)) }
    ensures err { OnErr result (HoldsFront out.old (boolean_bits pattern align (seen value.now)) out.new) }
    ensures aligned { IsWholeBytes align out.new }
{
    write_boolean(out, value, pattern, align)
}

/// Writes octets behind their number.
pub fn write_octets(
    out: &mut BitOut,
    hex: bool,
    value: &Val,
    align: Align,
) -> Result<(), AllocError>
    requires form { IsOf (binary hex) (seen value.now) }
    requires aligned { IsWholeBytes align out.old }
    ensures ok { OnOk result (out.new ≡ out.old ++ binary_bits (seen value.now)) }
    ensures err { OnErr result (HoldsFront out.old (binary_bits (seen value.now)) out.new) }
    ensures aligned { IsWholeBytes align out.new }
{
    write_binary(out, value, align)
}

/// Writes a decimal.
pub fn write_fixed(out: &mut BitOut, value: &Val, align: Align) -> Result<(), AllocError>
    requires form { IsOf decimal (seen value.now) }
    requires aligned { IsWholeBytes align out.old }
    ensures ok { OnOk result (out.new ≡ out.old ++ decimal_bits align (seen value.now)) }
    ensures err { OnErr result (HoldsFront out.old (decimal_bits align (seen value.now)) out.new) }
    ensures aligned { IsWholeBytes align out.new }
{
    write_decimal(out, value, align)
}

/// Writes a float.
pub fn write_floating(out: &mut BitOut, value: &Val, align: Align) -> Result<(), AllocError>
    requires form { IsOf float (seen value.now) }
    requires aligned { IsWholeBytes align out.old }
    ensures ok { OnOk result (out.new ≡ out.old ++ float_bits align (seen value.now)) }
    ensures err { OnErr result (HoldsFront out.old (float_bits align (seen value.now)) out.new) }
    ensures aligned { IsWholeBytes align out.new }
{
    write_float(out, value, align)
}

/// Writes a date or a time.
pub fn write_date(
    out: &mut BitOut,
    kind: MomentKind,
    value: &Val,
    align: Align,
) -> Result<(), AllocError>
    requires form { IsOf (moment kind) (seen value.now) }
    requires aligned { IsWholeBytes align out.old }
    ensures ok { OnOk result (out.new ≡ out.old ++ dated_bits align (seen value.now)) }
    ensures err { OnErr result (HoldsFront out.old (dated_bits align (seen value.now)) out.new) }
    ensures aligned { IsWholeBytes align out.new }
{
    let Val::Mom(date) = value else {
        unreachable!();
    };
    write_moment(out, date, align)
}

/// Writes an enumerated value, by its least place (EXI 1.0, section 7.2).
pub fn write_choice(
    out: &mut BitOut,
    base: &Datatype,
    values: &ValList,
    value: &Val,
    align: Align,
) -> Result<(), AllocError>
    requires form { IsOf (choice (represented base.now) (vals values.now)) (seen value.now) }
    requires aligned { IsWholeBytes align out.old }
    ensures ok { OnOk result (out.new ≡ out.old ++ choice_bits (vals values.now) align (seen value.now)) }
    ensures err { OnErr result (HoldsFront out.old (choice_bits (vals values.now) align (seen value.now)) out.new) }
    ensures aligned { IsWholeBytes align out.new }
{
    let Some(place) = values.place_of(value) else {
        unreachable!();
    };
    put_place(out, place as u64, values.as_slice().len() as u64, align)
}
