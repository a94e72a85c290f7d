ghost use Rattle.std.specs.Prelude.{◌≡◌, ◌<◌, ◌-◌, ◌^◌, ◌↔◌, length, Some, IsTrue, IfOk, OnOk, OnErr};
ghost use Rattle.std.specs.Option.{option_copied, option_and_then};
ghost use Rattle.exi_tables.specs.Partitions.{
  Partitions,
  IsName,
  first_partitions,
  live_at,
  least_place,
  uris,
  locals,
  prefixes,
  values,
  name_values,
  name_value_at,
  name_value_place,
  with_uri,
  with_local,
  with_prefix,
  with_value,
};
ghost use Rattle.exi_tables.specs.Values.{StandsAs, name_place};

use crate::first_tables::FirstTables;
use crate::standing::Standing;
use exi_names::{NameId, Txt};
use std::alloc::{AllocError, Global};

/// String tables: URIs, for each URI its local names and its prefixes, the values of all names, and those
/// of each name (EXI 1.0, section 7.3).
///
/// Places count from 0. A look-up by place gives `None` where no live text has that place, and one
/// by text the least live place that has it, or `None` where none has. No look-up takes memory.
///
/// A list that a call makes longer must have fewer than 2^32 - 1 texts.
pub trait Tables {
    ghost held: { Self → Partitions };

    /// The tables at the start of a stream (EXI 1.0, appendix D): the first tables, and no values. Values of more than
    /// `most` characters are never added, and of those that are, the last `capacity` are live (EXI 1.0, section 7.3.3).
    /// No room is made for the capacity, which may be any number.
    ///
    /// It takes no memory, and no time that grows with the first tables.
    fn start(alloc: Global, first: FirstTables, most: Option<u128>, capacity: Option<u128>) -> Self
    where
        Self: Sized,
        ensures { held result ≡ first_partitions first most capacity };

    /// Starts again, with the room that there is: nothing is left of what was added.
    ///
    /// It takes no memory. Its time grows with what was added, not with the first tables.
    fn restart(&mut self, first: FirstTables, most: Option<u128>, capacity: Option<u128>)
        ensures { held self.new ≡ first_partitions first most capacity };

    /// How many URIs there are.
    fn uris(&self) -> u32
        ensures { result ≡ length (uris (held self.now)) };

    /// The URI at a place.
    fn uri_at(&self, place: u32) -> Option<&Txt>
        ensures { option_copied result ≡ live_at (uris (held self.now)) place };

    /// The least place of a URI.
    fn uri_of(&self, text: &Txt) -> Option<u32>
        ensures { result ≡ least_place (uris (held self.now)) text.now };

    /// The least place of the URI that stands at a place.
    fn least_uri(&self, place: u32) -> u32
        requires place { place < length (uris (held self.now)) }
        ensures { Some result ≡ option_and_then (least_place (uris (held self.now)))
            (live_at (uris (held self.now)) place) };

    /// Adds a URI at the end, with no local names and no prefixes, and gives its place.
    ///
    /// # Errors
    ///
    /// `AllocError` where memory is refused; the tables are then unchanged.
    fn add_uri(&mut self, text: Txt) -> Result<u32, AllocError>
        requires room { length (uris (held self.old)) < 2 ^ 32 - 1 }
        ensures place { IfOk result (λ place. place ≡ length (uris (held self.old))) }
        ensures added { OnOk result (held self.new ≡ with_uri (held self.old) text) }
        ensures err { OnErr result (held self.new ≡ held self.old) };

    /// How many local names the URI at this place has.
    fn locals(&self, uri: u32) -> u32
        requires uri { uri < length (uris (held self.now)) }
        ensures { result ≡ length (locals (held self.now) uri) };

    /// The local name at a place.
    fn local_at(&self, uri: u32, place: u32) -> Option<&Txt>
        requires uri { uri < length (uris (held self.now)) }
        ensures { option_copied result ≡ live_at (locals (held self.now) uri) place };

    /// The least place of a local name.
    fn local_of(&self, uri: u32, text: &Txt) -> Option<u32>
        requires uri { uri < length (uris (held self.now)) }
        ensures { result ≡ least_place (locals (held self.now) uri) text.now };

    /// The least place of the local name that stands at a place.
    fn least_local(&self, uri: u32, place: u32) -> u32
        requires uri { uri < length (uris (held self.now)) }
        requires place { place < length (locals (held self.now) uri) }
        ensures { Some result ≡ option_and_then (least_place (locals (held self.now) uri))
            (live_at (locals (held self.now) uri) place) };

    /// Adds a local name at the end of those of a URI, and gives its place.
    ///
    /// # Errors
    ///
    /// `AllocError` where memory is refused; the tables are then unchanged.
    fn add_local(&mut self, uri: u32, text: Txt) -> Result<u32, AllocError>
        requires uri { uri < length (uris (held self.old)) }
        requires room { length (locals (held self.old) uri) < 2 ^ 32 - 1 }
        ensures place { IfOk result (λ place. place ≡ length (locals (held self.old) uri)) }
        ensures added { OnOk result (held self.new ≡ with_local (held self.old) uri text) }
        ensures err { OnErr result (held self.new ≡ held self.old) };

    /// How many prefixes the URI at this place has.
    fn prefixes(&self, uri: u32) -> u32
        requires uri { uri < length (uris (held self.now)) }
        ensures { result ≡ length (prefixes (held self.now) uri) };

    /// The prefix at a place.
    fn prefix_at(&self, uri: u32, place: u32) -> Option<&Txt>
        requires uri { uri < length (uris (held self.now)) }
        ensures { option_copied result ≡ live_at (prefixes (held self.now) uri) place };

    /// The least place of a prefix.
    fn prefix_of(&self, uri: u32, text: &Txt) -> Option<u32>
        requires uri { uri < length (uris (held self.now)) }
        ensures { result ≡ least_place (prefixes (held self.now) uri) text.now };

    /// Adds a prefix at the end of those of a URI, and gives its place.
    ///
    /// # Errors
    ///
    /// `AllocError` where memory is refused; the tables are then unchanged.
    fn add_prefix(&mut self, uri: u32, text: Txt) -> Result<u32, AllocError>
        requires uri { uri < length (uris (held self.old)) }
        requires room { length (prefixes (held self.old) uri) < 2 ^ 32 - 1 }
        ensures place { IfOk result (λ place. place ≡ length (prefixes (held self.old) uri)) }
        ensures added { OnOk result (held self.new ≡ with_prefix (held self.old) uri text) }
        ensures err { OnErr result (held self.new ≡ held self.old) };

    /// How many places the global partition has.
    fn values(&self) -> u32
        ensures { result ≡ length (values (held self.now)) };

    /// The value at a place of the global partition.
    fn value_at(&self, place: u32) -> Option<&Txt>
        ensures { option_copied result ≡ live_at (values (held self.now)) place };

    /// The least place of a value in the global partition.
    fn value_place(&self, text: &Txt) -> Option<u32>
        ensures { result ≡ least_place (values (held self.now)) text.now };

    /// How many places were ever given in a name's own partition.
    fn name_values(&self, name: NameId) -> u32
        requires name { IsName (held self.now) name }
        ensures { result ≡ name_values (held self.now) name };

    /// The live value at a place of a name's own partition.
    fn name_value_at(&self, name: NameId, place: u32) -> Option<&Txt>
        requires name { IsName (held self.now) name }
        ensures { option_copied result ≡ name_value_at (held self.now) name place };

    /// The number of a name's own partition: its place among those to which a value was ever added. Through it the
    /// partition is looked up once for its count and a value. `None` where no value was added under the name.
    fn own_number(&self, name: NameId) -> Option<usize>
        requires name { IsName (held self.now) name }
        ensures { result ≡ name_place name (held self.now).values.given };

    /// How many places were ever given in a name's own partition, of this number.
    fn numbered_values(&self, name: NameId, number: usize) -> u32
        requires name { IsName (held self.now) name }
        requires number { name_place name (held self.now).values.given ≡ Some number }
        ensures { result ≡ name_values (held self.now) name };

    /// The live value at a place of a name's own partition, of this number.
    fn numbered_value_at(&self, name: NameId, number: usize, place: u32) -> Option<&Txt>
        requires name { IsName (held self.now) name }
        requires number { name_place name (held self.now).values.given ≡ Some number }
        ensures { option_copied result ≡ name_value_at (held self.now) name place };

    /// The least place of a live value in a name's own partition.
    fn name_value_place(&self, name: NameId, text: &Txt) -> Option<u32>
        requires name { IsName (held self.now) name }
        ensures { result ≡ name_value_place (held self.now) name text.now };

    /// Where a value stands: at its least place in a name's own partition, and else at its least place in the global
    /// one. Hash tables look the text up once for both.
    fn value_standing(&self, name: NameId, text: &Txt) -> Standing
        requires name { IsName (held self.now) name }
        ensures { StandsAs result (name_value_place (held self.now) name text.now)
            (least_place (values (held self.now)) text.now) };

    /// Adds a value to the global partition and to its name's own, where it has a character, is not longer
    /// than the greatest length, and the capacity is not 0. Where there are as many live values as the
    /// capacity allows, the oldest is live no longer.
    ///
    /// # Errors
    ///
    /// `AllocError` where memory is refused; the tables are then unchanged.
    fn add_value(&mut self, name: NameId, text: Txt) -> Result<(), AllocError>
        requires name { IsName (held self.old) name }
        requires room { length (values (held self.old)) < 2 ^ 32 - 1 }
        requires own { name_values (held self.old) name < 2 ^ 32 - 1 }
        ensures added { OnOk result (held self.new ≡ with_value (held self.old) name text) }
        ensures err { OnErr result (held self.new ≡ held self.old) };
}

/// Whether the places of a name exist: that of its URI, and that of its local name under it.
pub fn is_name<T: Tables>(tables: &T, name: NameId) -> bool
    ensures { IsTrue result ↔ IsName (T.held tables.now) name }
{
    name.uri < tables.uris() && name.local < tables.locals(name.uri)
}
