ghost use Rattle.std.specs.Prelude.{◌≡◌, ◌^◌, Ok, IfErr, IfNone, IfSome, IsErr, OnErr};
ghost use Rattle.std.specs.Option.{option_copied};
ghost use Rattle.exi_bits.specs.Bits.{IsAligned};
ghost use Rattle.exi_items.specs.Charges.{Charges, after_text, meter_after};
ghost use Rattle.exi_tables.specs.Growth.{NoneLonger};
ghost use Rattle.exi_tables.specs.Partitions.{IsName, Partitions, values};
ghost use Rattle.exi_text.specs.Literals.{chars_at};
ghost use Rattle.exi_typed.specs.ReadStates.{Goes, GoesOrStops, read_state};
ghost use Rattle.exi_typed.specs.Places.{string_text, with_string};
ghost use Rattle.exi_typed.specs.Strings.{hit_at, listed, literal_at, no_growth, own_values, value_at};

use crate::charge::{charge_text, place_below, told};
use exi_bits::{Align, BitIn, Fault, Kind, Stop};
use exi_meter::Meter;
use exi_names::{Alphabet, NameId, Txt};
use exi_tables::Tables;
use exi_text::read_chars;
use std::alloc::Global;

/// A string value that was read.
#[derive(Debug, Drop)]
pub enum StringRead<'a> {
    /// It stands in the tables.
    Stands(&'a Txt),
    /// It was spelled out. It is still to be added by [`Tables::add_value`], under the same name.
    Missed(Txt),
}

impl<'a> StringRead<'a> {
    /// Its text.
    pub fn text(&self) -> &Txt
        ensures { result.now ≡ string_text self.now }
    {
        match self {
            StringRead::Stands(text) => text,
            StringRead::Missed(text) => text,
        }
    }
}

/// Reads a literal: its length in characters, and its characters (EXI 1.0, section 7.1.10). It stands in no
/// string table.
///
/// # Errors
///
/// The place may then be any, and what was charged before a fault stays charged.
///
/// - `Short`, `TooWide` and `BadChar` at the item that is so.
/// - `TextLimit` at the first character where the characters would pass the limit.
/// - `Memory` where memory is refused.
#[tactic(auto, unfolding(crate::specs::Strings::literal_at, crate::specs::Strings::missed_at))]
pub fn read_literal(
    alloc: Global,
    input: &mut BitIn<'_>,
    align: Align,
    meter: &mut Meter,
) -> Result<Txt, Stop>
    requires aligned { IsAligned align input.old }
    ensures read { (p : Partitions) → GoesOrStops (λ t. (t, read_state input.new meter.new p)) meter.new result (literal_at align no_growth (read_state input.old meter.old p)) }
    ensures bytes { input.new.bytes ≡ input.old.bytes }
    ensures aligned { IsAligned align input.new }
{
    let count = input.unsigned()?;
    read_chars(alloc, input, count, None, align, meter)
}

/// The text that a place among the values of a name tells. `None` where there is a fault; nothing is then taken
/// or charged.
#[inline(never)]
#[tactic(auto, unfolding(crate::specs::Strings::hit_at, crate::specs::Strings::charged_at, exi_items::specs::Charges::text_charge))]
fn own_text<'a, T: Tables>(
    input: &mut BitIn<'_>,
    align: Align,
    name: NameId,
    tables: &'a T,
    meter: &mut Meter,
) -> Option<&'a Txt>
    requires name { IsName (T.held tables.now) name }
    requires aligned { IsAligned align input.old }
    ensures read { IfSome result (λ t. hit_at align (own_values (T.held tables.now) name) (read_state input.old meter.old (T.held tables.now)) ≡ Ok (t.now, read_state input.new meter.new (T.held tables.now))) }
    ensures none { IfNone result (IsErr (hit_at align (own_values (T.held tables.now) name) (read_state input.old meter.old (T.held tables.now)))) }
    ensures place { IfNone result (input.new ≡ input.old) }
    ensures meter { IfNone result (meter.new ≡ meter.old) }
    ensures bytes { input.new.bytes ≡ input.old.bytes }
    ensures aligned { IsAligned align input.new }
{
    let bit = input.at();
    let number = tables.own_number(name)?;
    let count = tables.numbered_values(name, number);
    let Some(place) = place_below(input, u64::from(count), align) else {
        return None;
    };
    let Some(text) = tables.numbered_value_at(name, number, place as u32) else {
        input.go_to_bit(bit);
        return None;
    };
    if meter.text(u128::from(text.count())) {
        return Some(text);
    }
    input.go_to_bit(bit);
    None
}

/// Reads a place among the values of a name, and gives its text or the fault.
#[cold]
#[inline(never)]
#[tactic(auto, unfolding(crate::specs::Strings::hit_at, crate::specs::Strings::charged_at))]
fn own_or_fault<'a, T: Tables>(
    input: &mut BitIn<'_>,
    align: Align,
    name: NameId,
    tables: &'a T,
    meter: &mut Meter,
) -> Result<&'a Txt, Fault>
    requires name { IsName (T.held tables.now) name }
    requires aligned { IsAligned align input.old }
    ensures read { Goes (λ t. (t.now, read_state input.new meter.new (T.held tables.now))) meter.new result (hit_at align (own_values (T.held tables.now) name) (read_state input.old meter.old (T.held tables.now))) }
    ensures bytes { input.new.bytes ≡ input.old.bytes }
    ensures aligned { IsAligned align input.new }
{
    let bit = input.at();
    let count = tables.name_values(name);
    let place = input.below(u64::from(count), align, Kind::BadPlace)?;
    let text = told(tables.name_value_at(name, place as u32), bit)?;
    charge_text(meter, text, input.at())?;
    Ok(text)
}

/// The text that a place among all values tells. `None` where there is a fault; nothing is then taken
/// or charged.
#[inline(never)]
#[tactic(auto, unfolding(crate::specs::Strings::hit_at, crate::specs::Strings::charged_at, exi_items::specs::Charges::text_charge))]
fn any_text<'a, T: Tables>(
    input: &mut BitIn<'_>,
    align: Align,
    tables: &'a T,
    meter: &mut Meter,
) -> Option<&'a Txt>
    requires aligned { IsAligned align input.old }
    ensures read { IfSome result (λ t. hit_at align (listed (values (T.held tables.now))) (read_state input.old meter.old (T.held tables.now)) ≡ Ok (t.now, read_state input.new meter.new (T.held tables.now))) }
    ensures none { IfNone result (IsErr (hit_at align (listed (values (T.held tables.now))) (read_state input.old meter.old (T.held tables.now)))) }
    ensures place { IfNone result (input.new ≡ input.old) }
    ensures meter { IfNone result (meter.new ≡ meter.old) }
    ensures bytes { input.new.bytes ≡ input.old.bytes }
    ensures aligned { IsAligned align input.new }
{
    let bit = input.at();
    let Some(place) = place_below(input, u64::from(tables.values()), align) else {
        return None;
    };
    let Some(text) = tables.value_at(place as u32) else {
        input.go_to_bit(bit);
        return None;
    };
    if meter.text(u128::from(text.count())) {
        return Some(text);
    }
    input.go_to_bit(bit);
    None
}

/// Reads a place among all values, and gives its text or the fault.
#[cold]
#[inline(never)]
#[tactic(auto, unfolding(crate::specs::Strings::hit_at, crate::specs::Strings::charged_at))]
fn any_or_fault<'a, T: Tables>(
    input: &mut BitIn<'_>,
    align: Align,
    tables: &'a T,
    meter: &mut Meter,
) -> Result<&'a Txt, Fault>
    requires aligned { IsAligned align input.old }
    ensures read { Goes (λ t. (t.now, read_state input.new meter.new (T.held tables.now))) meter.new result (hit_at align (listed (values (T.held tables.now))) (read_state input.old meter.old (T.held tables.now))) }
    ensures bytes { input.new.bytes ≡ input.old.bytes }
    ensures aligned { IsAligned align input.new }
{
    let bit = input.at();
    let place = input.below(u64::from(tables.values()), align, Kind::BadPlace)?;
    let text = told(tables.value_at(place as u32), bit)?;
    charge_text(meter, text, input.at())?;
    Ok(text)
}

/// Reads a string value of a name as [`read_string`] does, with its faults, and whatever its first number takes.
#[cold]
#[inline(never)]
#[tactic(auto, unfolding(crate::specs::Strings::value_at, crate::specs::Strings::missed_at))]
fn read_any<'a, T: Tables>(
    alloc: Global,
    input: &mut BitIn<'_>,
    set: Option<&Alphabet>,
    align: Align,
    name: NameId,
    tables: &'a T,
    meter: &mut Meter,
) -> Result<StringRead<'a>, Stop>
    requires name { IsName (T.held tables.now) name }
    requires aligned { IsAligned align input.old }
    ensures read { GoesOrStops (λ s. (string_text s, read_state input.new meter.new (with_string (T.held tables.now) name s))) meter.new result (value_at (option_copied set.entry) align name (read_state input.old meter.old (T.held tables.now))) }
    ensures bytes { input.new.bytes ≡ input.old.bytes }
    ensures aligned { IsAligned align input.new }
{
    let way = input.unsigned()?;
    if way > 1 {
        let text = read_chars(alloc, input, way - 2, set, align, meter)?;
        return Ok(StringRead::Missed(text));
    }
    if way == 0 {
        let text = own_or_fault(input, align, name, tables, meter)?;
        return Ok(StringRead::Stands(text));
    }
    let text = any_or_fault(input, align, tables, meter)?;
    Ok(StringRead::Stands(text))
}

/// The same, with an answer that takes no memory of the caller's before it is there.
#[inline(always)]
fn any_apart<'a, T: Tables>(
    alloc: Global,
    input: &mut BitIn<'_>,
    set: Option<&Alphabet>,
    align: Align,
    name: NameId,
    tables: &'a T,
    meter: &mut Meter,
) -> Result<StringRead<'a>, Stop>
    requires name { IsName (T.held tables.now) name }
    requires aligned { IsAligned align input.old }
    ensures read { GoesOrStops (λ s. (string_text s, read_state input.new meter.new (with_string (T.held tables.now) name s))) meter.new result (value_at (option_copied set.entry) align name (read_state input.old meter.old (T.held tables.now))) }
    ensures bytes { input.new.bytes ≡ input.old.bytes }
    ensures aligned { IsAligned align input.new }
{
    match read_any(alloc, input, set, align, name, tables, meter) {
        Ok(string) => Ok(string),
        Err(stop) => Err(stop),
    }
}

/// Reads the characters of a string as [`read_chars`] does, with an answer that takes no memory of the caller's
/// before it is there.
#[inline(always)]
fn missed_chars(
    alloc: Global,
    input: &mut BitIn<'_>,
    count: u64,
    set: Option<&Alphabet>,
    align: Align,
    meter: &mut Meter,
) -> Result<Txt, Stop>
    requires aligned { IsAligned align input.old }
    ensures read { Charges (λ t. t) result input.new meter.new (chars_at (option_copied set.entry) align count (record { spot = input.old; meter = meter.old })) }
    ensures place { OnErr result (input.new ≡ input.old) }
    ensures meter { IfErr result (λ stop. meter.new ≡ meter_after stop meter.old (after_text meter.old count)) }
    ensures bytes { input.new.bytes ≡ input.old.bytes }
    ensures aligned { IsAligned align input.new }
{
    match read_chars(alloc, input, u128::from(count), set, align, meter) {
        Ok(text) => Ok(text),
        Err(stop) => Err(stop),
    }
}

/// Reads a string value of a name (EXI 1.0, sections 7.1.10 and 7.3.3), with a set of characters or without.
/// The tables are not changed: a value that is [`StringRead::Missed`] is the caller's to add, once it was
/// handed on.
///
/// # Errors
///
/// The place may then be any, and what was charged before a fault stays charged.
///
/// - `Short`, `TooWide` and `BadChar` at the item that is so.
/// - `BadPlace` at the place of a value that is not there, or is live no longer.
/// - `TextLimit` where the text would pass the limit: at its first character, or behind its place.
/// - `Memory` where memory is refused.
#[inline(always)]
#[tactic(auto, unfolding(crate::specs::Strings::value_at, crate::specs::Strings::missed_at))]
pub fn read_string<'a, T: Tables>(
    alloc: Global,
    input: &mut BitIn<'_>,
    set: Option<&Alphabet>,
    align: Align,
    name: NameId,
    tables: &'a T,
    meter: &mut Meter,
) -> Result<StringRead<'a>, Stop>
    requires name { IsName (T.held tables.now) name }
    requires aligned { IsAligned align input.old }
    ensures read { GoesOrStops (λ s. (string_text s, read_state input.new meter.new (with_string (T.held tables.now) name s))) meter.new result (value_at (option_copied set.entry) align name (read_state input.old meter.old (T.held tables.now))) }
    ensures bytes { input.new.bytes ≡ input.old.bytes }
    ensures aligned { IsAligned align input.new }
{
    let start = input.at();
    let Some(way) = input.one_octet() else {
        return any_apart(alloc, input, set, align, name, tables, meter);
    };
    if way > 1 {
        let text = missed_chars(alloc, input, way - 2, set, align, meter)?;
        return Ok(StringRead::Missed(text));
    }
    if way == 0 {
        let Some(text) = own_text(input, align, name, tables, meter) else {
            input.go_to_bit(start);
            return any_apart(alloc, input, set, align, name, tables, meter);
        };
        return Ok(StringRead::Stands(text));
    }
    let Some(text) = any_text(input, align, tables, meter) else {
        input.go_to_bit(start);
        return any_apart(alloc, input, set, align, name, tables, meter);
    };
    Ok(StringRead::Stands(text))
}
