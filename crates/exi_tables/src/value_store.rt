ghost use Rattle.std.specs.Prelude.{◌≡◌, ◌<◌, ◌-◌, ◌^◌, Some, length, OnOk, OnErr};
ghost use Rattle.std.specs.Option.{option_copied};
ghost use Rattle.exi_tables.specs.Partitions.{live_at, least_place};
ghost use Rattle.exi_tables.specs.Values.{
  StandsAs,
  ValueTable,
  given_to,
  least_under,
  name_place,
  no_values,
  text_under,
  texts_of,
  with_missed,
};

use crate::standing::Standing;
use exi_names::{NameId, Txt};
use std::alloc::{AllocError, Global};

/// The values of string tables.
pub trait ValueStore {
    ghost table: { Self → ValueTable };

    /// No values, within these bounds.
    fn new(alloc: Global, most: Option<u128>, capacity: Option<u128>) -> Self
    where
        Self: Sized,
        ensures { table result ≡ no_values (record { most = most; capacity = capacity }) };

    /// Starts again with no values, within these bounds, and keeps the room.
    fn restart(&mut self, most: Option<u128>, capacity: Option<u128>)
        ensures { table self.new ≡ no_values (record { most = most; capacity = capacity }) };

    /// How many values are live.
    fn count(&self) -> u32
        ensures { result ≡ length (texts_of (table self.now)) };

    /// The value at a place among all.
    fn at(&self, place: u32) -> Option<&Txt>
        ensures { option_copied result ≡ live_at (texts_of (table self.now)) place };

    /// The least place of a value among all.
    fn of(&self, text: &Txt) -> Option<u32>
        ensures { result ≡ least_place (texts_of (table self.now)) text.now };

    /// How many places were given under a name.
    fn given(&self, name: NameId) -> u32
        ensures { result ≡ given_to name (table self.now).given };

    /// The live value at a place under a name.
    fn own_at(&self, name: NameId, place: u32) -> Option<&Txt>
        ensures { option_copied result ≡ text_under name (table self.now).live place };

    /// The number of a name: its place among those under which values were added.
    fn number(&self, name: NameId) -> Option<usize>
        ensures { result ≡ name_place name (table self.now).given };

    /// How many places were given under the name of a number.
    fn numbered_given(&self, name: NameId, number: usize) -> u32
        requires number { name_place name (table self.now).given ≡ Some number }
        ensures { result ≡ given_to name (table self.now).given };

    /// The live value at a place under the name of a number.
    fn numbered_at(&self, name: NameId, number: usize, place: u32) -> Option<&Txt>
        requires number { name_place name (table self.now).given ≡ Some number }
        ensures { option_copied result ≡ text_under name (table self.now).live place };

    /// The least place of a live value under a name.
    fn own_of(&self, name: NameId, text: &Txt) -> Option<u32>
        ensures { result ≡ least_under name text.now (table self.now).live };

    /// Where a value stands: at its least place under a name, and else at its least place among all.
    fn standing(&self, name: NameId, text: &Txt) -> Standing
        ensures { StandsAs result (least_under name text.now (table self.now).live)
            (least_place (texts_of (table self.now)) text.now) }
    {
        if let Some(place) = self.own_of(name, text) {
            return Standing::Own(place);
        }
        match self.of(text) {
            Some(place) => Standing::Global(place),
            None => Standing::Missing,
        }
    }

    /// Adds a value as the bounds say.
    ///
    /// # Errors
    ///
    /// `AllocError` where memory is refused; the values are then unchanged.
    fn add(&mut self, name: NameId, text: Txt) -> Result<(), AllocError>
        requires room { length (texts_of (table self.old)) < 2 ^ 32 - 1 }
        requires own { given_to name (table self.old).given < 2 ^ 32 - 1 }
        ensures added { OnOk result (table self.new ≡ with_missed (table self.old) name text) }
        ensures err { OnErr result (table self.new ≡ table self.old) };
}
