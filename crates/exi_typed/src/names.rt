ghost use Rattle.std.specs.Prelude.{◌≡◌, ◌<◌, ◌^◌, Err, None, Ok, false, true, IfOk, length};
ghost use Rattle.std.specs.Prelude.{option_map};
ghost use Rattle.std.specs.Bool.{OnFalse, OnTrue};
ghost use Rattle.std.specs.Option.{option_copied};
ghost use Rattle.exi_bits.specs.Bits.{IsAligned};
ghost use Rattle.exi_bits.specs.declared.align.Align.TheVariants as align;
ghost use Rattle.exi_bits.specs.declared.fault.Kind.TheVariants as kind;
ghost use Rattle.exi_names.specs.Shown.{named};
ghost use Rattle.exi_tables.specs.Growth.{NoneLonger};
ghost use Rattle.exi_tables.specs.Partitions.{IsName, live_at, prefixes, uris};
ghost use Rattle.exi_typed.specs.ReadStates.{Goes, GoesOrStops, Leaves, read_state};
ghost use Rattle.exi_typed.specs.NameValues.{name_value_at};
ghost use Rattle.exi_typed.specs.Places.{IsNameAt, IsPlaceIn, name_in, text_in};
ghost use Rattle.exi_typed.specs.Strings.{known_at, name_at, name_under, prefix_at};

use crate::charge::{charge, charge_text, place_below, told};
use crate::parts::{NameRead, read_parts, read_prefix_of, read_under};
use crate::spaces::{Space, told_local};
use exi_bits::{Align, BitIn, Fault, Kind, Stop};
use exi_meter::Meter;
use exi_names::{NameId, NameRef, Txt};
use exi_tables::Tables;
use std::alloc::Global;

/// A qualified name that was read, by its places in the string tables.
#[derive(Clone, Copy, Debug, PartialEq, Eq)]
pub struct NameAt {
    /// The least places of its URI and its local name.
    pub id: NameId,
    /// The place of its prefix among those of its URI, where it has one.
    pub prefix: Option<u32>,
}

/// The prefix that stands at a place among those of a URI.
#[cold]
#[inline(never)]
fn prefix_text<T: Tables>(tables: &T, uri: u32, place: u32) -> Option<&Txt>
    requires uri { uri < length (uris (T.held tables.now)) }
    ensures { option_copied result ≡ live_at (prefixes (T.held tables.now) uri) place }
{
    tables.prefix_at(uri, place)
}

/// The name that stands at these places of the tables.
#[inline(always)]
pub fn name_ref<T: Tables>(tables: &T, name: NameAt) -> NameRef<'_>
    requires { IsNameAt (T.held tables.now) name }
    ensures { named result ≡ (name_in (T.held tables.now) name).name }
{
    let uri = tables.uri_at(name.id.uri).unwrap();
    let local = tables.local_at(name.id.uri, name.id.local).unwrap();
    let prefix = match name.prefix {
        Some(place) => prefix_text(tables, name.id.uri, place),
        None => None,
    };
    NameRef { uri, local, prefix }
}

/// Reads the prefix of a name under the URI at a place, where prefixes are kept (EXI 1.0, section 7.1.7), and
/// gives its place among those of the URI. Where the URI has none nothing is coded, and the name has none.
///
/// # Errors
///
/// The place may then be any.
///
/// - `Short` and `BadPlace` at the prefix's place.
/// - `TextLimit` behind it, where the prefix would pass the limit.
#[inline(always)]
#[tactic(auto, unfolding(crate::specs::Strings::prefix_at))]
pub fn read_prefix<T: Tables>(
    input: &mut BitIn<'_>,
    keep: bool,
    align: Align,
    uri: u32,
    tables: &T,
    meter: &mut Meter,
) -> Result<Option<u32>, Fault>
    requires uri { uri < length (uris (T.held tables.now)) }
    requires aligned { IsAligned align input.old }
    ensures read { Goes (λ place. (option_map (text_in (prefixes (T.held tables.now) uri)) place, read_state input.new meter.new (T.held tables.now))) meter.new result (prefix_at keep align uri (read_state input.old meter.old (T.held tables.now))) }
    ensures within { IfOk result (λ place. IsPlaceIn (prefixes (T.held tables.now) uri) place) }
    ensures bytes { input.new.bytes ≡ input.old.bytes }
    ensures aligned { IsAligned align input.new }
{
    if !keep {
        return Ok(None);
    }
    kept_apart(input, align, uri, tables, meter)
}

/// Reads the prefix of a name under the URI at a place, where prefixes are kept.
#[inline(never)]
fn read_kept<T: Tables>(
    input: &mut BitIn<'_>,
    align: Align,
    uri: u32,
    tables: &T,
    meter: &mut Meter,
) -> Result<Option<u32>, Fault>
    requires uri { uri < length (uris (T.held tables.now)) }
    requires aligned { IsAligned align input.old }
    ensures read { Goes (λ place. (option_map (text_in (prefixes (T.held tables.now) uri)) place, read_state input.new meter.new (T.held tables.now))) meter.new result (prefix_at true align uri (read_state input.old meter.old (T.held tables.now))) }
    ensures within { IfOk result (λ place. IsPlaceIn (prefixes (T.held tables.now) uri) place) }
    ensures bytes { input.new.bytes ≡ input.old.bytes }
    ensures aligned { IsAligned align input.new }
{
    read_prefix_of(input, true, align, &NameRead::under(uri), tables, meter)
}

/// The same, with an answer that takes no memory of the caller's before it is there.
#[inline(always)]
fn kept_apart<T: Tables>(
    input: &mut BitIn<'_>,
    align: Align,
    uri: u32,
    tables: &T,
    meter: &mut Meter,
) -> Result<Option<u32>, Fault>
    requires uri { uri < length (uris (T.held tables.now)) }
    requires aligned { IsAligned align input.old }
    ensures read { Goes (λ place. (option_map (text_in (prefixes (T.held tables.now) uri)) place, read_state input.new meter.new (T.held tables.now))) meter.new result (prefix_at true align uri (read_state input.old meter.old (T.held tables.now))) }
    ensures within { IfOk result (λ place. IsPlaceIn (prefixes (T.held tables.now) uri) place) }
    ensures bytes { input.new.bytes ≡ input.old.bytes }
    ensures aligned { IsAligned align input.new }
{
    match read_kept(input, align, uri, tables, meter) {
        Ok(place) => Ok(place),
        Err(fault) => Err(fault),
    }
}

/// Charges the texts of a name. Whether they are within the limit; where they are not, what was charged stays charged.
#[inline(always)]
#[tactic(auto, unfolding(crate::specs::Strings::known_at, crate::specs::Strings::charged_at, exi_items::specs::Charges::text_charge))]
fn charge_name<T: Tables>(input: &BitIn<'_>, name: NameId, tables: &T, meter: &mut Meter) -> bool
    requires name { IsName (T.held tables.now) name }
    ensures within { OnTrue result (known_at false align.Bits name (read_state input.now meter.old (T.held tables.now)) ≡ Ok (name_in (T.held tables.now) (record { id = name; prefix = None }), read_state input.now meter.new (T.held tables.now))) }
    ensures past { OnFalse result (known_at false align.Bits name (read_state input.now meter.old (T.held tables.now)) ≡ Err (record { fault = record { kind = kind.TextLimit; bit = input.now.place }; meter = meter.new })) }
{
    let uri = tables.uri_at(name.uri).unwrap();
    if !meter.text(u128::from(uri.count())) {
        return false;
    }
    let local = tables.local_at(name.uri, name.local).unwrap();
    if !meter.text(u128::from(local.count())) {
        return false;
    }
    true
}

/// Reads a name that the event's code tells, where prefixes are kept.
#[inline(never)]
#[tactic(auto, unfolding(crate::specs::Strings::known_at, crate::specs::Strings::charged_at))]
fn read_known_kept<T: Tables>(
    input: &mut BitIn<'_>,
    align: Align,
    name: NameId,
    tables: &T,
    meter: &mut Meter,
) -> Result<NameAt, Fault>
    requires name { IsName (T.held tables.now) name }
    requires aligned { IsAligned align input.old }
    ensures read { Goes (λ n. (name_in (T.held tables.now) n, read_state input.new meter.new (T.held tables.now))) meter.new result (known_at true align name (read_state input.old meter.old (T.held tables.now))) }
    ensures places { IfOk result (λ n. IsNameAt (T.held tables.now) n) }
    ensures id { IfOk result (λ n. n.id ≡ name) }
    ensures bytes { input.new.bytes ≡ input.old.bytes }
    ensures aligned { IsAligned align input.new }
{
    let bit = input.at();
    let uri = told(tables.uri_at(name.uri), bit)?;
    charge_text(meter, uri, bit)?;
    let local = told(tables.local_at(name.uri, name.local), bit)?;
    charge_text(meter, local, bit)?;
    let prefix = read_kept(input, align, name.uri, tables, meter)?;
    Ok(NameAt { id: name, prefix })
}

/// The same, with an answer that takes no memory of the caller's before it is there.
#[inline(always)]
fn known_apart<T: Tables>(
    input: &mut BitIn<'_>,
    align: Align,
    name: NameId,
    tables: &T,
    meter: &mut Meter,
) -> Result<NameAt, Fault>
    requires name { IsName (T.held tables.now) name }
    requires aligned { IsAligned align input.old }
    ensures read { Goes (λ n. (name_in (T.held tables.now) n, read_state input.new meter.new (T.held tables.now))) meter.new result (known_at true align name (read_state input.old meter.old (T.held tables.now))) }
    ensures places { IfOk result (λ n. IsNameAt (T.held tables.now) n) }
    ensures id { IfOk result (λ n. n.id ≡ name) }
    ensures bytes { input.new.bytes ≡ input.old.bytes }
    ensures aligned { IsAligned align input.new }
{
    match read_known_kept(input, align, name, tables, meter) {
        Ok(name) => Ok(name),
        Err(fault) => Err(fault),
    }
}

/// Reads a name that the event's code tells: its texts are charged, and only its prefix is coded.
///
/// # Errors
///
/// The place may then be any, and what was charged stays charged.
///
/// - `TextLimit` where a text would pass the limit: at the place, or behind that of the prefix.
/// - `Short` and `BadPlace` at the prefix's place.
#[inline(always)]
#[tactic(auto, unfolding(crate::specs::Strings::known_at))]
pub fn read_known<T: Tables>(
    input: &mut BitIn<'_>,
    keep: bool,
    align: Align,
    name: NameId,
    tables: &T,
    meter: &mut Meter,
) -> Result<NameAt, Fault>
    requires name { IsName (T.held tables.now) name }
    requires aligned { IsAligned align input.old }
    ensures read { Goes (λ n. (name_in (T.held tables.now) n, read_state input.new meter.new (T.held tables.now))) meter.new result (known_at keep align name (read_state input.old meter.old (T.held tables.now))) }
    ensures places { IfOk result (λ n. IsNameAt (T.held tables.now) n) }
    ensures id { IfOk result (λ n. n.id ≡ name) }
    ensures bytes { input.new.bytes ≡ input.old.bytes }
    ensures aligned { IsAligned align input.new }
{
    if keep {
        return known_apart(input, align, name, tables, meter);
    }
    if charge_name(input, name, tables, meter) {
        let prefix = None;
        return Ok(NameAt { id: name, prefix });
    }
    Err(Fault {
        kind: Kind::TextLimit,
        bit: input.at(),
    })
}

/// Reads a name as [`read_name_under`] does, whether its local name is told or spelled out.
#[inline(never)]
fn read_any_under<T: Tables>(
    alloc: Global,
    input: &mut BitIn<'_>,
    keep: bool,
    align: Align,
    uri: u32,
    tables: &mut T,
    meter: &mut Meter,
) -> Result<NameAt, Stop>
    requires uri { uri < length (uris (T.held tables.old)) }
    requires few { NoneLonger (2 ^ 31) (T.held tables.old) }
    requires aligned { IsAligned align input.old }
    ensures read { GoesOrStops (λ n. (name_in (T.held tables.new) n, read_state input.new meter.new (T.held tables.new))) meter.new result (name_under keep align uri (text_in (uris (T.held tables.old)) uri) (read_state input.old meter.old (T.held tables.old))) }
    ensures places { IfOk result (λ n. IsNameAt (T.held tables.new) n) }
    ensures tables { Leaves result (T.held tables.old) (T.held tables.new) }
    ensures bytes { input.new.bytes ≡ input.old.bytes }
    ensures aligned { IsAligned align input.new }
{
    let read = read_under(alloc, input, keep, align, Space::at(uri), tables, meter)?;
    Ok(read.add(tables)?)
}

/// The same, with an answer that takes no memory of the caller's before it is there.
#[inline(always)]
fn under_apart<T: Tables>(
    alloc: Global,
    input: &mut BitIn<'_>,
    keep: bool,
    align: Align,
    uri: u32,
    tables: &mut T,
    meter: &mut Meter,
) -> Result<NameAt, Stop>
    requires uri { uri < length (uris (T.held tables.old)) }
    requires few { NoneLonger (2 ^ 31) (T.held tables.old) }
    requires aligned { IsAligned align input.old }
    ensures read { GoesOrStops (λ n. (name_in (T.held tables.new) n, read_state input.new meter.new (T.held tables.new))) meter.new result (name_under keep align uri (text_in (uris (T.held tables.old)) uri) (read_state input.old meter.old (T.held tables.old))) }
    ensures places { IfOk result (λ n. IsNameAt (T.held tables.new) n) }
    ensures tables { Leaves result (T.held tables.old) (T.held tables.new) }
    ensures bytes { input.new.bytes ≡ input.old.bytes }
    ensures aligned { IsAligned align input.new }
{
    match read_any_under(alloc, input, keep, align, uri, tables, meter) {
        Ok(name) => Ok(name),
        Err(stop) => Err(stop),
    }
}

/// Reads the local name of a URI at a place and, where prefixes are kept, the prefix, and adds what is missed.
///
/// # Errors
///
/// The place may then be any, and what was charged before a fault stays charged. The tables are unchanged.
///
/// - `Short`, `TooWide` and `BadChar` at the item that is so.
/// - `BadPlace` at the place of a text that is not there.
/// - `TextLimit` where a text would pass the limit: at its first character, or behind its place.
/// - `Memory` where memory is refused.
#[inline(always)]
#[tactic(auto, unfolding(crate::specs::Strings::name_under, crate::specs::Strings::local_at, crate::specs::Strings::hit_at, crate::specs::Strings::charged_at))]
pub fn read_name_under<T: Tables>(
    alloc: Global,
    input: &mut BitIn<'_>,
    keep: bool,
    align: Align,
    uri: u32,
    tables: &mut T,
    meter: &mut Meter,
) -> Result<NameAt, Stop>
    requires uri { uri < length (uris (T.held tables.old)) }
    requires few { NoneLonger (2 ^ 31) (T.held tables.old) }
    requires aligned { IsAligned align input.old }
    ensures read { GoesOrStops (λ n. (name_in (T.held tables.new) n, read_state input.new meter.new (T.held tables.new))) meter.new result (name_under keep align uri (text_in (uris (T.held tables.old)) uri) (read_state input.old meter.old (T.held tables.old))) }
    ensures places { IfOk result (λ n. IsNameAt (T.held tables.new) n) }
    ensures tables { Leaves result (T.held tables.old) (T.held tables.new) }
    ensures bytes { input.new.bytes ≡ input.old.bytes }
    ensures aligned { IsAligned align input.new }
{
    let start = input.at();
    let Some(code) = input.one_octet() else {
        return under_apart(alloc, input, keep, align, uri, tables, meter);
    };
    if code > 0 {
        input.go_to_bit(start);
        return under_apart(alloc, input, keep, align, uri, tables, meter);
    }
    let bit = input.at();
    let Some(place) = place_below(input, u64::from(tables.locals(uri)), align) else {
        input.go_to_bit(start);
        return under_apart(alloc, input, keep, align, uri, tables, meter);
    };
    let (local, text) = told_local(tables, uri, place as u32, bit)?;
    charge_text(meter, text, input.at())?;
    let prefix = read_prefix(input, keep, align, uri, tables, meter)?;
    let id = NameId { uri, local };
    Ok(NameAt { id, prefix })
}

/// Reads a name as [`read_name`] does, whether its URI is told or spelled out.
#[inline(never)]
fn read_any<T: Tables>(
    alloc: Global,
    input: &mut BitIn<'_>,
    keep: bool,
    align: Align,
    tables: &mut T,
    meter: &mut Meter,
) -> Result<NameAt, Stop>
    requires few { NoneLonger (2 ^ 31) (T.held tables.old) }
    requires aligned { IsAligned align input.old }
    ensures read { GoesOrStops (λ n. (name_in (T.held tables.new) n, read_state input.new meter.new (T.held tables.new))) meter.new result (name_at keep align (read_state input.old meter.old (T.held tables.old))) }
    ensures places { IfOk result (λ n. IsNameAt (T.held tables.new) n) }
    ensures tables { Leaves result (T.held tables.old) (T.held tables.new) }
    ensures bytes { input.new.bytes ≡ input.old.bytes }
    ensures aligned { IsAligned align input.new }
{
    let read = read_parts(alloc, input, keep, align, tables, meter)?;
    Ok(read.add(tables)?)
}

/// The same, with an answer that takes no memory of the caller's before it is there.
#[inline(always)]
fn any_apart<T: Tables>(
    alloc: Global,
    input: &mut BitIn<'_>,
    keep: bool,
    align: Align,
    tables: &mut T,
    meter: &mut Meter,
) -> Result<NameAt, Stop>
    requires few { NoneLonger (2 ^ 31) (T.held tables.old) }
    requires aligned { IsAligned align input.old }
    ensures read { GoesOrStops (λ n. (name_in (T.held tables.new) n, read_state input.new meter.new (T.held tables.new))) meter.new result (name_at keep align (read_state input.old meter.old (T.held tables.old))) }
    ensures places { IfOk result (λ n. IsNameAt (T.held tables.new) n) }
    ensures tables { Leaves result (T.held tables.old) (T.held tables.new) }
    ensures bytes { input.new.bytes ≡ input.old.bytes }
    ensures aligned { IsAligned align input.new }
{
    match read_any(alloc, input, keep, align, tables, meter) {
        Ok(name) => Ok(name),
        Err(stop) => Err(stop),
    }
}

/// Reads a qualified name: its URI, its local name and, where prefixes are kept, its prefix (EXI 1.0, section
/// 7.1.7). A URI or a local name that is missed is added; the name goes on as the least places of its texts.
///
/// # Errors
///
/// The place may then be any, and what was charged before a fault stays charged. After a fault the tables are
/// unchanged; where memory ran out they may have the URI.
///
/// - `Short`, `TooWide` and `BadChar` at the item that is so.
/// - `BadPlace` at the place of a text that is not there.
/// - `TextLimit` where a text would pass the limit: at its first character, or behind its place.
/// - `Memory` where memory is refused.
#[inline(never)]
#[tactic(auto, unfolding(crate::specs::Strings::name_at, crate::specs::Strings::indexed_at, crate::specs::Strings::charged_at))]
pub fn read_name<T: Tables>(
    alloc: Global,
    input: &mut BitIn<'_>,
    keep: bool,
    align: Align,
    tables: &mut T,
    meter: &mut Meter,
) -> Result<NameAt, Stop>
    requires few { NoneLonger (2 ^ 31) (T.held tables.old) }
    requires aligned { IsAligned align input.old }
    ensures read { GoesOrStops (λ n. (name_in (T.held tables.new) n, read_state input.new meter.new (T.held tables.new))) meter.new result (name_at keep align (read_state input.old meter.old (T.held tables.old))) }
    ensures places { IfOk result (λ n. IsNameAt (T.held tables.new) n) }
    ensures tables { Leaves result (T.held tables.old) (T.held tables.new) }
    ensures bytes { input.new.bytes ≡ input.old.bytes }
    ensures aligned { IsAligned align input.new }
{
    let start = input.at();
    let Some(code) = place_below(input, u64::from(tables.uris()) + 1, align) else {
        return any_apart(alloc, input, keep, align, tables, meter);
    };
    if code == 0 {
        input.go_to_bit(start);
        return any_apart(alloc, input, keep, align, tables, meter);
    }
    let (space, text) = Space::told(tables, (code - 1) as u32, start)?;
    charge_text(meter, text, input.at())?;
    read_name_under(alloc, input, keep, align, space.place, tables, meter)
}

/// Reads a value that is a name, as that of `xsi:type` (EXI 1.0, sections 7.1.7 and 8.4.3): one unit is charged,
/// and a qualified name follows.
///
/// # Errors
///
/// As [`read_name`], and `TextLimit` at the place where the unit would pass the limit.
#[tactic(auto, unfolding(crate::specs::NameValues::name_value_at))]
pub fn read_name_value<T: Tables>(
    alloc: Global,
    input: &mut BitIn<'_>,
    keep: bool,
    align: Align,
    tables: &mut T,
    meter: &mut Meter,
) -> Result<NameAt, Stop>
    requires few { NoneLonger (2 ^ 31) (T.held tables.old) }
    requires aligned { IsAligned align input.old }
    ensures read { GoesOrStops (λ n. (name_in (T.held tables.new) n, read_state input.new meter.new (T.held tables.new))) meter.new result (name_value_at keep align (read_state input.old meter.old (T.held tables.old))) }
    ensures places { IfOk result (λ n. IsNameAt (T.held tables.new) n) }
    ensures tables { Leaves result (T.held tables.old) (T.held tables.new) }
    ensures bytes { input.new.bytes ≡ input.old.bytes }
    ensures aligned { IsAligned align input.new }
{
    charge(meter, 1, input.at())?;
    read_name(alloc, input, keep, align, tables, meter)
}
