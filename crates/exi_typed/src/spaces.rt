ghost use Rattle.std.specs.Prelude.{◌≡◌, ◌<◌, ◌-◌, ◌^◌, None, Some, IfOk, OnOk, OnErr, MatchResult, length};
ghost use Rattle.std.specs.Option.{option_copied};
ghost use Rattle.exi_bits.specs.Bits.{IsAligned};
ghost use Rattle.exi_bits.specs.declared.fault.Kind.TheVariants as kind;
ghost use Rattle.exi_tables.specs.Growth.{NoneLonger};
ghost use Rattle.exi_tables.specs.Partitions.{live_at, locals, prefixes, uris};
ghost use Rattle.exi_typed.specs.ReadStates.{GoesOrStops, read_state};
ghost use Rattle.exi_typed.specs.Places.{
  IsSpace,
  IsSpelledIn,
  space_text,
  spelled_text,
  text_in,
  with_space,
  with_spelled_local,
  with_spelled_prefix,
};
ghost use Rattle.exi_typed.specs.Strings.{local_at, place_in, uri_at};

use crate::charge::{charge_text, told};
use exi_bits::{Align, BitIn, Fault, Kind, Stop};
use exi_meter::Meter;
use exi_names::Txt;
use exi_tables::Tables;
use exi_text::read_chars;
use std::alloc::{AllocError, Global};

/// A URI that was read, and is not added yet.
#[derive(Drop)]
pub struct Space {
    /// The least place that has it, once it is added.
    pub place: u32,
    /// The URI itself, where it was spelled out.
    pub missed: Option<Txt>,
}

/// A local name or prefix that was read, and is not added yet.
#[derive(Drop)]
pub enum Spelled {
    /// It stands at this place.
    Placed(u32),
    /// It was spelled out.
    Missed(Txt),
}

impl Space {
    /// The URI at a place.
    pub fn at(place: u32) -> Space
        ensures { result ≡ record { place = place; missed = None } }
    {
        Space {
            place,
            missed: None,
        }
    }

    /// A URI that was spelled out.
    fn of<T: Tables>(tables: &T, text: Txt) -> Space
        requires few { NoneLonger (2 ^ 31) (T.held tables.now) }
        ensures text { result.missed ≡ Some text }
        ensures least { result.place ≡ place_in (uris (with_space (T.held tables.now) result)) text }
        ensures space { IsSpace (T.held tables.now) result }
    {
        let place = tables.uri_of(&text).unwrap_or(tables.uris());
        Space {
            place,
            missed: Some(text),
        }
    }

    /// The URI that a place tells, with its text, or `BadPlace` at the place's first bit.
    #[inline(always)]
    pub fn told<T: Tables>(tables: &T, place: u32, bit: u64) -> Result<(Space, &Txt), Fault>
        ensures told { MatchResult result (λ x. live_at (uris (T.held tables.now)) place ≡ Some x.1.now) (λ f. (live_at (uris (T.held tables.now)) place ≡ None) × (f ≡ record { kind = kind.BadPlace; bit = bit })) }
        ensures missed { IfOk result (λ x. x.0.missed ≡ None) }
        ensures text { IfOk result (λ x. space_text (T.held tables.now) x.0 ≡ x.1.now) }
        ensures least { IfOk result (λ x. x.0.place ≡ place_in (uris (T.held tables.now)) x.1.now) }
        ensures space { IfOk result (λ x. IsSpace (T.held tables.now) x.0) }
    {
        let text = told(tables.uri_at(place), bit)?;
        Ok((Space::at(tables.least_uri(place)), text))
    }

    /// The URI itself.
    pub fn text<'a, T: Tables>(&'a self, tables: &'a T) -> &'a Txt
        requires { IsSpace (T.held tables.now) self.now }
        ensures { result.now ≡ space_text (T.held tables.now) self.now }
    {
        match &self.missed {
            Some(text) => text,
            None => tables.uri_at(self.place).unwrap(),
        }
    }

    /// The local name that was told among those of the URI, or spelled out.
    pub fn spelled_local<'a, T: Tables>(&self, tables: &'a T, local: &'a Spelled) -> &'a Txt
        requires { IsSpelledIn (locals (with_space (T.held tables.now) self.now) self.now.place) local.now }
        ensures { result.now ≡ spelled_text (locals (with_space (T.held tables.now) self.now) self.now.place) local.now }
    {
        match local {
            Spelled::Placed(place) => self.local_at(tables, *place).unwrap(),
            Spelled::Missed(text) => text,
        }
    }

    /// How many local names the URI has.
    fn locals<T: Tables>(&self, tables: &T) -> u32
        ensures { result ≡ length (locals (with_space (T.held tables.now) self.now) self.now.place) }
    {
        if self.place < tables.uris() {
            tables.locals(self.place)
        } else {
            0
        }
    }

    /// The local name of the URI at a place.
    fn local_at<'a, T: Tables>(&self, tables: &'a T, place: u32) -> Option<&'a Txt>
        ensures { option_copied result ≡ live_at (locals (with_space (T.held tables.now) self.now) self.now.place) place }
    {
        if self.place < tables.uris() {
            tables.local_at(self.place, place)
        } else {
            None
        }
    }

    /// How many prefixes the URI has.
    pub fn prefixes<T: Tables>(&self, tables: &T) -> u32
        ensures { result ≡ length (prefixes (with_space (T.held tables.now) self.now) self.now.place) }
    {
        if self.place < tables.uris() {
            tables.prefixes(self.place)
        } else {
            0
        }
    }

    /// The prefix of the URI at a place.
    pub fn prefix_at<'a, T: Tables>(&self, tables: &'a T, place: u32) -> Option<&'a Txt>
        ensures { option_copied result ≡ live_at (prefixes (with_space (T.held tables.now) self.now) self.now.place) place }
    {
        if self.place < tables.uris() {
            tables.prefix_at(self.place, place)
        } else {
            None
        }
    }

    /// Adds the URI where it was spelled out, and gives its least place.
    ///
    /// # Errors
    ///
    /// `AllocError` where memory is refused; the tables are then unchanged.
    pub fn add<T: Tables>(self, tables: &mut T) -> Result<u32, AllocError>
        requires few { NoneLonger (2 ^ 31) (T.held tables.old) }
        ensures place { IfOk result (λ place. place ≡ self.place) }
        ensures added { OnOk result (T.held tables.new ≡ with_space (T.held tables.old) self) }
        ensures err { OnErr result (T.held tables.new ≡ T.held tables.old) }
    {
        let Space { place, missed } = self;
        match missed {
            Some(text) => {
                tables.add_uri(text)?;
                Ok(place)
            }
            None => Ok(place),
        }
    }
}

/// Reads a URI (EXI 1.0, section 7.3.2). After an `Err` the place is anything.
#[tactic(auto, unfolding(crate::specs::Strings::indexed_at, crate::specs::Strings::literal_at, crate::specs::Strings::missed_at, crate::specs::Strings::charged_at))]
pub fn read_uri<T: Tables>(
    alloc: Global,
    input: &mut BitIn<'_>,
    align: Align,
    tables: &T,
    meter: &mut Meter,
) -> Result<Space, Stop>
    requires few { NoneLonger (2 ^ 31) (T.held tables.now) }
    requires aligned { IsAligned align input.old }
    ensures read { GoesOrStops (λ s. (space_text (T.held tables.now) s, read_state input.new meter.new (with_space (T.held tables.now) s))) meter.new result (uri_at align (read_state input.old meter.old (T.held tables.now))) }
    ensures least { IfOk result (λ s. s.place ≡ place_in (uris (with_space (T.held tables.now) s)) (space_text (T.held tables.now) s)) }
    ensures space { IfOk result (λ s. IsSpace (T.held tables.now) s) }
    ensures bytes { input.new.bytes ≡ input.old.bytes }
    ensures aligned { IsAligned align input.new }
{
    let bit = input.at();
    let code = input.below(u64::from(tables.uris()) + 1, align, Kind::BadPlace)?;
    if code == 0 {
        let count = input.unsigned()?;
        let text = read_chars(alloc, input, count, None, align, meter)?;
        return Ok(Space::of(tables, text));
    }
    let (space, text) = Space::told(tables, (code - 1) as u32, bit)?;
    charge_text(meter, text, input.at())?;
    Ok(space)
}

/// Reads a local name of a URI (EXI 1.0, section 7.3.2). After an `Err` the place is anything.
#[tactic(auto, unfolding(crate::specs::Strings::local_at, crate::specs::Strings::hit_at, crate::specs::Strings::missed_at, crate::specs::Strings::charged_at))]
pub fn read_local<T: Tables>(
    alloc: Global,
    input: &mut BitIn<'_>,
    align: Align,
    space: &Space,
    tables: &T,
    meter: &mut Meter,
) -> Result<Spelled, Stop>
    requires aligned { IsAligned align input.old }
    ensures read { GoesOrStops (λ l. (spelled_text (locals (with_space (T.held tables.now) space.now) space.now.place) l, read_state input.new meter.new (with_spelled_local (with_space (T.held tables.now) space.now) space.now.place l))) meter.new result (local_at align space.now.place (read_state input.old meter.old (with_space (T.held tables.now) space.now))) }
    ensures within { IfOk result (λ l. IsSpelledIn (locals (with_space (T.held tables.now) space.now) space.now.place) l) }
    ensures bytes { input.new.bytes ≡ input.old.bytes }
    ensures aligned { IsAligned align input.new }
{
    let code = input.unsigned()?;
    if code > 0 {
        let text = read_chars(alloc, input, code - 1, None, align, meter)?;
        return Ok(Spelled::Missed(text));
    }
    let bit = input.at();
    let place = input.below(u64::from(space.locals(tables)), align, Kind::BadPlace)? as u32;
    let text = told(space.local_at(tables, place), bit)?;
    charge_text(meter, text, input.at())?;
    Ok(Spelled::Placed(place))
}

/// The local name of a URI that a place tells: its least place, and its text. `BadPlace` at the place's first bit
/// where there is none.
#[inline(always)]
pub fn told_local<T: Tables>(
    tables: &T,
    uri: u32,
    place: u32,
    bit: u64,
) -> Result<(u32, &Txt), Fault>
    requires uri { uri < length (uris (T.held tables.now)) }
    ensures told { MatchResult result (λ x. live_at (locals (T.held tables.now) uri) place ≡ Some x.1.now) (λ f. (live_at (locals (T.held tables.now) uri) place ≡ None) × (f ≡ record { kind = kind.BadPlace; bit = bit })) }
    ensures text { IfOk result (λ x. text_in (locals (T.held tables.now) uri) x.0 ≡ x.1.now) }
    ensures least { IfOk result (λ x. x.0 ≡ place_in (locals (T.held tables.now) uri) x.1.now) }
    ensures within { IfOk result (λ x. x.0 < length (locals (T.held tables.now) uri)) }
{
    let text = told(tables.local_at(uri, place), bit)?;
    Ok((tables.least_local(uri, place), text))
}

/// Adds a local name of a URI where it was spelled out, and gives its least place.
pub fn add_local<T: Tables>(tables: &mut T, uri: u32, local: Spelled) -> Result<u32, AllocError>
    requires uri { uri < length (uris (T.held tables.old)) }
    requires room { length (locals (T.held tables.old) uri) < 2 ^ 32 - 1 }
    requires within { IsSpelledIn (locals (T.held tables.old) uri) local }
    ensures place { IfOk result (λ place. place ≡ place_in (locals (T.held tables.new) uri) (spelled_text (locals (T.held tables.old) uri) local)) }
    ensures within { IfOk result (λ place. place < length (locals (T.held tables.new) uri)) }
    ensures text { IfOk result (λ place. text_in (locals (T.held tables.new) uri) place ≡ spelled_text (locals (T.held tables.old) uri) local) }
    ensures added { OnOk result (T.held tables.new ≡ with_spelled_local (T.held tables.old) uri local) }
    ensures err { OnErr result (T.held tables.new ≡ T.held tables.old) }
{
    match local {
        Spelled::Placed(place) => Ok(tables.least_local(uri, place)),
        Spelled::Missed(text) => {
            let least = tables.local_of(uri, &text);
            let place = tables.add_local(uri, text)?;
            Ok(least.unwrap_or(place))
        }
    }
}

/// Adds a prefix of a URI where it was spelled out, and gives its place.
pub fn add_prefix<T: Tables>(tables: &mut T, uri: u32, prefix: Spelled) -> Result<u32, AllocError>
    requires uri { uri < length (uris (T.held tables.old)) }
    requires room { length (prefixes (T.held tables.old) uri) < 2 ^ 32 - 1 }
    requires within { IsSpelledIn (prefixes (T.held tables.old) uri) prefix }
    ensures within { IfOk result (λ place. place < length (prefixes (T.held tables.new) uri)) }
    ensures text { IfOk result (λ place. text_in (prefixes (T.held tables.new) uri) place ≡ spelled_text (prefixes (T.held tables.old) uri) prefix) }
    ensures added { OnOk result (T.held tables.new ≡ with_spelled_prefix (T.held tables.old) uri prefix) }
    ensures err { OnErr result (T.held tables.new ≡ T.held tables.old) }
{
    match prefix {
        Spelled::Placed(place) => Ok(place),
        Spelled::Missed(text) => {
            let place = tables.add_prefix(uri, text)?;
            Ok(place)
        }
    }
}
