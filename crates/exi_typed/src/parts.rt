ghost use Rattle.std.specs.Prelude.{◌≡◌, ◌^◌, None, IfOk, OnOk, OnErr, length, option_map};
ghost use Rattle.std.specs.Option.{option_copied};
ghost use Rattle.exi_bits.specs.Bits.{IsAligned};
ghost use Rattle.exi_tables.specs.Growth.{NoneLonger};
ghost use Rattle.exi_tables.specs.Partitions.{live_at, prefixes};
ghost use Rattle.exi_typed.specs.ReadStates.{Goes, GoesOrStops, MayHaveUri, read_state};
ghost use Rattle.exi_typed.specs.Places.{
  IsNameAt,
  IsNameRead,
  IsPlaceIn,
  IsSpace,
  name_in,
  name_of,
  space_text,
  text_in,
  with_name,
  with_space,
};
ghost use Rattle.exi_typed.specs.Strings.{name_at, name_under, prefix_at};

use crate::charge::{charge_text, told};
use crate::names::NameAt;
use crate::spaces::{Space, Spelled, add_local, read_local, read_uri};
use exi_bits::{Align, BitIn, Fault, Kind, Stop};
use exi_meter::Meter;
use exi_names::{NameId, QName, Txt};
use exi_tables::Tables;
use std::alloc::{AllocError, Global};

/// A qualified name that was read, and of which nothing is added yet.
#[derive(Drop)]
pub struct NameRead {
    /// Its URI.
    pub space: Space,
    /// Its local name.
    pub local: Spelled,
    /// The place of its prefix among those of its URI, where it has one.
    pub prefix: Option<u32>,
}

impl NameRead {
    /// A name of the URI at a place.
    pub fn under(uri: u32) -> NameRead
        ensures { result ≡ record { space = record { place = uri; missed = None }; local = Spelled.Placed 0; prefix = None } }
    {
        NameRead {
            space: Space::at(uri),
            local: Spelled::Placed(0),
            prefix: None,
        }
    }

    /// How many prefixes its URI has.
    fn prefixes<T: Tables>(&self, tables: &T) -> u32
        ensures { result ≡ length (prefixes (with_name (T.held tables.now) self.now) self.now.space.place) }
    {
        self.space.prefixes(tables)
    }

    /// The prefix of its URI at a place.
    fn prefix_at<'a, T: Tables>(&self, tables: &'a T, place: u32) -> Option<&'a Txt>
        ensures { option_copied result ≡ live_at (prefixes (with_name (T.held tables.now) self.now) self.now.space.place) place }
    {
        self.space.prefix_at(tables, place)
    }

    /// Adds what was missed, and gives the places of the name.
    ///
    /// # Errors
    ///
    /// `AllocError` where memory is refused; the tables may then have the URI.
    pub fn add<T: Tables>(self, tables: &mut T) -> Result<NameAt, AllocError>
        requires few { NoneLonger (2 ^ 31) (T.held tables.old) }
        requires read { IsNameRead (T.held tables.old) self }
        ensures name { IfOk result (λ n. name_in (T.held tables.new) n ≡ name_of (T.held tables.old) self) }
        ensures places { IfOk result (λ n. IsNameAt (T.held tables.new) n) }
        ensures added { OnOk result (T.held tables.new ≡ with_name (T.held tables.old) self) }
        ensures err { OnErr result (MayHaveUri (T.held tables.old) (T.held tables.new)) }
    {
        let NameRead {
            space,
            local,
            prefix,
        } = self;
        let uri = space.add(tables)?;
        let local = add_local(tables, uri, local)?;
        Ok(NameAt {
            id: NameId { uri, local },
            prefix,
        })
    }

    /// The name, in memory of its own.
    ///
    /// # Errors
    ///
    /// `AllocError` where memory is refused.
    pub fn copy<T: Tables>(&self, tables: &T) -> Result<QName, AllocError>
        requires read { IsNameRead (T.held tables.now) self.now }
        ensures { IfOk result (λ n. n ≡ (name_of (T.held tables.now) self.now).name) }
    {
        let prefix = match self.prefix {
            Some(place) => Some(self.prefix_at(tables, place).unwrap().copy()?),
            None => None,
        };
        Ok(QName {
            uri: self.space.text(tables).copy()?,
            local: self.space.spelled_local(tables, &self.local).copy()?,
            prefix,
        })
    }
}

/// Reads the prefix of a name of a URI, where prefixes are kept (EXI 1.0, section 7.1.7). After an `Err` the
/// place is anything.
#[inline(never)]
#[tactic(auto, unfolding(crate::specs::Strings::hit_at, crate::specs::Strings::charged_at))]
pub fn read_prefix_of<T: Tables>(
    input: &mut BitIn<'_>,
    keep: bool,
    align: Align,
    read: &NameRead,
    tables: &T,
    meter: &mut Meter,
) -> Result<Option<u32>, Fault>
    requires aligned { IsAligned align input.old }
    ensures read { Goes (λ place. (option_map (text_in (prefixes (with_name (T.held tables.now) read.now) read.now.space.place)) place, read_state input.new meter.new (with_name (T.held tables.now) read.now))) meter.new result (prefix_at keep align read.now.space.place (read_state input.old meter.old (with_name (T.held tables.now) read.now))) }
    ensures within { IfOk result (λ place. IsPlaceIn (prefixes (with_name (T.held tables.now) read.now) read.now.space.place) place) }
    ensures bytes { input.new.bytes ≡ input.old.bytes }
    ensures aligned { IsAligned align input.new }
{
    if !keep {
        return Ok(None);
    }
    let count = read.prefixes(tables);
    if count == 0 {
        return Ok(None);
    }
    let bit = input.at();
    let place = input.below(u64::from(count), align, Kind::BadPlace)? as u32;
    let text = told(read.prefix_at(tables, place), bit)?;
    charge_text(meter, text, input.at())?;
    Ok(Some(place))
}

/// Reads the local name and the prefix of a name of a URI. After an `Err` the place is anything.
#[tactic(auto, unfolding(crate::specs::Strings::name_under))]
pub fn read_under<T: Tables>(
    alloc: Global,
    input: &mut BitIn<'_>,
    keep: bool,
    align: Align,
    space: Space,
    tables: &T,
    meter: &mut Meter,
) -> Result<NameRead, Stop>
    requires space { IsSpace (T.held tables.now) space }
    requires aligned { IsAligned align input.old }
    ensures read { GoesOrStops (λ r. (name_of (T.held tables.now) r, read_state input.new meter.new (with_name (T.held tables.now) r))) meter.new result (name_under keep align space.place (space_text (T.held tables.now) space) (read_state input.old meter.old (with_space (T.held tables.now) space))) }
    ensures places { IfOk result (λ r. IsNameRead (T.held tables.now) r) }
    ensures bytes { input.new.bytes ≡ input.old.bytes }
    ensures aligned { IsAligned align input.new }
{
    let local = read_local(alloc, input, align, &space, tables, meter)?;
    let mut read = NameRead {
        space,
        local,
        prefix: None,
    };
    read.prefix = read_prefix_of(input, keep, align, &read, tables, meter)?;
    Ok(read)
}

/// Reads a qualified name. After an `Err` the place is anything.
#[tactic(auto, unfolding(crate::specs::Strings::name_at))]
pub fn read_parts<T: Tables>(
    alloc: Global,
    input: &mut BitIn<'_>,
    keep: bool,
    align: Align,
    tables: &T,
    meter: &mut Meter,
) -> Result<NameRead, Stop>
    requires few { NoneLonger (2 ^ 31) (T.held tables.now) }
    requires aligned { IsAligned align input.old }
    ensures read { GoesOrStops (λ r. (name_of (T.held tables.now) r, read_state input.new meter.new (with_name (T.held tables.now) r))) meter.new result (name_at keep align (read_state input.old meter.old (T.held tables.now))) }
    ensures places { IfOk result (λ r. IsNameRead (T.held tables.now) r) }
    ensures bytes { input.new.bytes ≡ input.old.bytes }
    ensures aligned { IsAligned align input.new }
{
    let space = read_uri(alloc, input, align, tables, meter)?;
    read_under(alloc, input, keep, align, space, tables, meter)
}
