ghost use Rattle.std.specs.Prelude.{◌≡◌, ◌+◌, ◌++◌, ◌<◌, ◌≤◌, ◌^◌, IfSome, IsTrue, OnOk, OnErr};
ghost use Rattle.std.specs.Option.{option_copied};
ghost use Rattle.exi_bits.specs.Bits.{bits, number};
ghost use Rattle.exi_bits.specs.Unsigned.{shortest};
ghost use Rattle.exi_bits.specs.Widths.{width_for};
ghost use Rattle.exi_bits.specs.Written.{IsWholeBytes};
ghost use Rattle.exi_items.specs.Fronts.{HoldsFront};
ghost use Rattle.exi_text.specs.Literals.{all_xml};
ghost use Rattle.exi_typed.specs.Written.{indexed_bits, listed_bits, literal_bits, spelled_bits};

use exi_bits::{Align, BitOut, bits_for};
use exi_names::{Alphabet, Txt};
use exi_text::write_chars;
use std::alloc::{AllocError, Global};

/// Adds a place among so many.
pub fn put_place(out: &mut BitOut, place: u64, count: u64, align: Align) -> Result<(), AllocError>
    requires within { place < count }
    requires aligned { IsWholeBytes align out.old }
    ensures ok { OnOk result (out.new ≡ out.old ++ number (width_for count) align place) }
    ensures err { OnErr result (out.new ≡ out.old) }
    ensures aligned { IsWholeBytes align out.new }
{
    out.put(place, bits_for(count), align)
}

/// Adds an octet 0 and a place among so many. One number of both is written where nothing is aligned and it is no
/// wider than 64 bits.
pub fn put_known(out: &mut BitOut, place: u64, count: u64, align: Align) -> Result<(), AllocError>
    requires within { place < count }
    requires aligned { IsWholeBytes align out.old }
    ensures ok { OnOk result (out.new ≡ out.old ++ (bits (shortest 0) ++ number (width_for count) align place)) }
    ensures err { OnErr result (HoldsFront out.old (bits (shortest 0) ++ number (width_for count) align place) out.new) }
    ensures aligned { IsWholeBytes align out.new }
{
    let width = bits_for(count);
    if align == Align::Bits && width <= 56 {
        return out.put(place, width + 8, Align::Bits);
    }
    out.unsigned(0)?;
    put_place(out, place, count, align)
}

/// Writes a literal: its length in characters, and its characters (EXI 1.0, section 7.1.10). Each has to be an XML
/// character, and under [`Align::Bytes`] there have to be whole bytes of bits.
///
/// # Errors
///
/// Where there is no memory. The bits then end with a front of the literal's bits, maybe none.
pub fn write_literal(
    alloc: Global,
    out: &mut BitOut,
    text: &Txt,
    align: Align,
) -> Result<(), AllocError>
    requires xml { IsTrue (all_xml text.now) }
    requires aligned { IsWholeBytes align out.old }
    ensures ok { OnOk result (out.new ≡ out.old ++ literal_bits align text.now) }
    ensures err { OnErr result (HoldsFront out.old (literal_bits align text.now) out.new) }
    ensures aligned { IsWholeBytes align out.new }
{
    out.unsigned(u128::from(text.count()))?;
    write_chars(alloc, out, text, None, align)
}

/// Adds a text by a number of `count` and one more: one above its place, or 0 and a literal.
pub fn put_indexed(
    alloc: Global,
    out: &mut BitOut,
    text: &Txt,
    place: Option<u32>,
    count: u32,
    align: Align,
) -> Result<(), AllocError>
    requires xml { IsTrue (all_xml text.now) }
    requires within { IfSome place (λ i. i < count) }
    requires aligned { IsWholeBytes align out.old }
    ensures ok { OnOk result (out.new ≡ out.old ++ indexed_bits align count text.now place) }
    ensures err { OnErr result (HoldsFront out.old (indexed_bits align count text.now place) out.new) }
    ensures aligned { IsWholeBytes align out.new }
{
    let codes = u64::from(count) + 1;
    let Some(place) = place else {
        put_place(out, 0, codes, align)?;
        return write_literal(alloc, out, text, align);
    };
    put_place(out, u64::from(place) + 1, codes, align)?;
    Ok(())
}

/// Adds the length of a text and `more`, and its characters.
pub fn put_spelled(
    alloc: Global,
    out: &mut BitOut,
    text: &Txt,
    more: u128,
    set: Option<&Alphabet>,
    align: Align,
) -> Result<(), AllocError>
    requires xml { IsTrue (all_xml text.now) }
    requires few { more ≤ 2 }
    requires aligned { IsWholeBytes align out.old }
    ensures ok { OnOk result (out.new ≡ out.old ++ spelled_bits (option_copied set.entry) align more text.now) }
    ensures err { OnErr result (HoldsFront out.old (spelled_bits (option_copied set.entry) align more text.now) out.new) }
    ensures aligned { IsWholeBytes align out.new }
{
    out.unsigned(u128::from(text.count()) + more)?;
    write_chars(alloc, out, text, set, align)
}

/// Adds a local name: 0 and its place among so many, or its length and one more, and its characters.
pub fn put_listed(
    alloc: Global,
    out: &mut BitOut,
    text: &Txt,
    place: Option<u32>,
    count: u32,
    align: Align,
) -> Result<(), AllocError>
    requires xml { IsTrue (all_xml text.now) }
    requires within { IfSome place (λ i. i < count) }
    requires aligned { IsWholeBytes align out.old }
    ensures ok { OnOk result (out.new ≡ out.old ++ listed_bits align count text.now place) }
    ensures err { OnErr result (HoldsFront out.old (listed_bits align count text.now place) out.new) }
    ensures aligned { IsWholeBytes align out.new }
{
    let Some(place) = place else {
        return put_spelled(alloc, out, text, 1, None, align);
    };
    put_known(out, u64::from(place), u64::from(count), align)
}
