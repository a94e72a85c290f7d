ghost use Rattle.std.specs.Prelude.{◌≡◌, ◌++◌, ◌≤◌, None, OnOk, OnErr, IsTrue, length, option_copied, take};
ghost use Rattle.std.specs.Str.{IsAscii, chars};
ghost use Rattle.exi_bits.specs.Bits.{bits};
ghost use Rattle.exi_bits.specs.Unsigned.{shortest};
ghost use Rattle.exi_bits.specs.Written.{IsWholeBytes};
ghost use Rattle.exi_items.specs.Fronts.{HoldsFront};
ghost use Rattle.exi_text.specs.Literals.{all_xml, char_bits, chars_bits};

use crate::set::Set;
use exi_bits::{Align, BitOut};
use exi_names::{Alphabet, Txt};
use std::alloc::{AllocError, Global};

/// Adds a character: its place in the set, or else its code point, with the escape before it where
/// there is a set.
fn put_char(
    out: &mut BitOut,
    c: char,
    set: Option<&Set<'_>>,
    align: Align,
) -> Result<(), AllocError>
    requires aligned { IsWholeBytes align out.old }
    ensures ok { OnOk result (out.new ≡ out.old ++ char_bits (option_copied set.entry) align c) }
    ensures err { OnErr result (HoldsFront out.old (char_bits (option_copied set.entry) align c) out.new) }
    ensures aligned { IsWholeBytes align out.new }
{
    if let Some(set) = set {
        if let Some(place) = set.place_of(c) {
            return out.put(place, set.width(), align);
        }
        out.put(set.len(), set.width(), align)?;
    }
    out.unsigned(c as u128)
}

/// Adds the characters one after another.
fn put_chars(
    out: &mut BitOut,
    text: &str,
    set: Option<&Set<'_>>,
    align: Align,
) -> Result<(), AllocError>
    requires aligned { IsWholeBytes align out.old }
    ensures ok { OnOk result (out.new ≡ out.old ++ chars_bits (option_copied set.entry) align (chars text.now)) }
    ensures err { OnErr result (HoldsFront out.old (chars_bits (option_copied set.entry) align (chars text.now)) out.new) }
    ensures aligned { IsWholeBytes align out.new }
{
    for c in text.chars() {
        put_char(out, c, set, align)?;
    }
    Ok(())
}

/// Adds a code point, an Unsigned Integer of one to three octets.
#[inline(always)]
fn put_code(out: &mut BitOut, c: char) -> Result<(), AllocError>
    ensures ok { OnOk result (out.new ≡ out.old ++ bits (shortest c)) }
    ensures err { OnErr result (out.new ≡ out.old) }
{
    let code = u64::from(c as u32);
    if code < 0x80 {
        return out.put(code, 8, Align::Bits);
    }
    let first = code % 128 + 128;
    let behind = code / 128;
    if behind < 0x80 {
        return out.put(first * 256 + behind, 16, Align::Bits);
    }
    let second = behind % 128 + 128;
    out.put(first * 65536 + second * 256 + behind / 128, 24, Align::Bits)
}

/// How many octets from the first on are ASCII, looked at eight at a time.
#[inline(always)]
fn ascii_front(octets: &[u8]) -> usize
    ensures within { result ≤ length octets.now }
    ensures ascii { IsAscii (take result octets.now) }
{
    let mut run = 0;
    while octets.len() - run >= 8 && octets[run..run + 8].is_ascii() {
        run += 8;
    }
    while run < octets.len() && octets[run] < 0x80 {
        run += 1;
    }
    run
}

/// Adds the code points one after another: runs of ASCII by their octets, and each other one by itself.
fn put_mixed(out: &mut BitOut, text: &str, align: Align) -> Result<(), AllocError>
    requires aligned { IsWholeBytes align out.old }
    ensures ok { OnOk result (out.new ≡ out.old ++ chars_bits None align (chars text.now)) }
    ensures err { OnErr result (HoldsFront out.old (chars_bits None align (chars text.now)) out.new) }
    ensures aligned { IsWholeBytes align out.new }
{
    let mut left = text;
    loop {
        let (front, behind) = left.split_at(ascii_front(left.as_bytes()));
        out.octets(front.as_bytes())?;
        let mut others = behind.chars();
        match others.next() {
            Some(c) => put_code(out, c)?,
            None => return Ok(()),
        }
        left = others.as_str();
    }
}

/// Adds the code points one after another: those of a text of ASCII alone are its octets.
fn put_codes(out: &mut BitOut, text: &str, align: Align) -> Result<(), AllocError>
    requires aligned { IsWholeBytes align out.old }
    ensures ok { OnOk result (out.new ≡ out.old ++ chars_bits None align (chars text.now)) }
    ensures err { OnErr result (HoldsFront out.old (chars_bits None align (chars text.now)) out.new) }
    ensures aligned { IsWholeBytes align out.new }
{
    if text.is_ascii() {
        return out.octets(text.as_bytes());
    }
    put_mixed(out, text, align)
}

/// Adds the characters of a text without its length, with a set of characters or without
/// (EXI 1.0, sections 7.1.10 and 7.1.10.1). A character of the set is written by its place, each other
/// one by its code point. Each has to be an XML character, and under [`Align::Bytes`] there have to be
/// whole bytes of bits.
///
/// # Errors
///
/// Where there is no memory. The bits then end with a front of the characters' bits, maybe none.
pub fn write_chars(
    alloc: Global,
    out: &mut BitOut,
    text: &Txt,
    set: Option<&Alphabet>,
    align: Align,
) -> Result<(), AllocError>
    requires xml { IsTrue (all_xml text.now) }
    requires aligned { IsWholeBytes align out.old }
    ensures ok { OnOk result (out.new ≡ out.old ++ chars_bits (option_copied set.entry) align text.now) }
    ensures err { OnErr result (HoldsFront out.old (chars_bits (option_copied set.entry) align text.now) out.new) }
    ensures aligned { IsWholeBytes align out.new }
{
    let Some(alphabet) = set else {
        return put_codes(out, text.as_str(), align);
    };
    if text.as_str().is_empty() {
        return Ok(());
    }
    let set = Set::of(alloc, alphabet)?;
    put_chars(out, text.as_str(), Some(&set), align)
}
