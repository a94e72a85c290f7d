//! The schema's name.

ghost use Rattle.std.specs.Prelude.{◌≡◌, ◌≤◌, ◌++◌, None, IsTrue, OnOk, OnErr};
ghost use Rattle.exi_bits.specs.Repeat.{times};
ghost use Rattle.exi_bits.specs.Unsigned.{Stops};
ghost use Rattle.exi_bits.specs.declared.align.Align.TheVariants as align;
ghost use Rattle.exi_text.specs.Literals.{all_xml, char_at};
ghost use Rattle.exi_items.specs.Fronts.{HoldsFront};
ghost use Rattle.exi_options.specs.Reading.{most_characters, name_at};
ghost use Rattle.exi_options.specs.Writing.{name_bits};

use exi_bits::{Align, BitIn, BitOut, Fault, Kind, Stop};
use exi_meter::{Limits, Meter};
use exi_names::Txt;
use exi_text::{read_chars, write_chars};
use std::alloc::{AllocError, Global};

/// How many characters the schema's name (EXI 1.0, section 5.4, `schemaId`) has at most: our own bound.
pub const MOST_CHARACTERS: u128 = 65_536;

/// Reads a string that empty string tables do not hold (EXI 1.0, section 7.3.3). After an `Err` the place is anything.
///
/// # Errors
///
/// - `Short` and `TooWide` at the length or the character that is so.
/// - `BadPlace` behind a length that stands for a string of the tables.
/// - `TextLimit` at the length where there are more than [`MOST_CHARACTERS`]; room is asked for none of them.
/// - `BadChar` at a character that is none of XML.
/// - `Memory` where memory is refused.
#[tactic(auto, unfolding(crate::specs::Reading::name_at))]
pub fn read_name(alloc: Global, input: &mut BitIn<'_>) -> Result<Txt, Stop>
    ensures read { Stops (λ t. t) result input.new (name_at input.old) }
    ensures bytes { input.new.bytes ≡ input.old.bytes }
{
    let bit = input.at();
    let length = input.unsigned()?;
    if length < 2 {
        return Err(Stop::Fault(Fault {
            kind: Kind::BadPlace,
            bit: input.at(),
        }));
    }
    if length - 2 > MOST_CHARACTERS {
        return Err(Stop::Fault(Fault {
            kind: Kind::TextLimit,
            bit,
        }));
    }
    characters(alloc, input, length - 2)
}

/// Reads so many characters.
fn characters(alloc: Global, input: &mut BitIn<'_>, count: u128) -> Result<Txt, Stop>
    requires few { count ≤ most_characters }
    ensures read { Stops (λ t. t) result input.new (times (char_at None align.Bits) count input.old) }
    ensures bytes { input.new.bytes ≡ input.old.bytes }
{
    let mut meter = Meter::new(Limits::of_stream());
    read_chars(alloc, input, count, None, Align::Bits, &mut meter)
}

/// Writes a string that empty string tables do not hold, as [`read_name`] reads it.
///
/// # Errors
///
/// `AllocError` where memory is refused. The bits then end with a front of the string, maybe none of it.
pub fn write_name(alloc: Global, out: &mut BitOut, name: &Txt) -> Result<(), AllocError>
    requires xml { IsTrue (all_xml name.now) }
    ensures ok { OnOk result (out.new ≡ out.old ++ name_bits name.now) }
    ensures err { OnErr result (HoldsFront out.old (name_bits name.now) out.new) }
{
    out.unsigned(u128::from(name.count()) + 2)?;
    write_chars(alloc, out, name, None, Align::Bits)
}
