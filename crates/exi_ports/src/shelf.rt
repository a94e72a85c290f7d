ghost use Rattle.std.specs.Prelude.{◌≡◌, ◌≤◌, List, ℕ, Option};
ghost use Rattle.exi_names.specs.Events.{Rose};
ghost use Rattle.exi_ports.specs.Ports.{Fetched, Asks};

use exi_names::{Octets, Txt};
use std::alloc::Global;

/// What a fetch answers.
#[derive(Debug, Drop)]
pub enum Fetch {
    /// The bytes under the name, in full.
    Bytes(Octets),
    /// There are more bytes under the name than were allowed.
    TooLong,
    /// A fault of the shelf: its count of faults rose in this fetch.
    Failed,
    /// No memory was found; the shelf is as before.
    Memory,
}

/// Where files are fetched by their names.
///
/// A contract sees three things of a shelf: its files and the names asked so far, where it tells them, and a
/// count of faults. The count never falls, and one that stands at 2^64 - 1 stays there.
pub trait Shelf {
    /// The files in order, each name with its bytes, where the shelf tells them.
    ghost files: { Self → Option (List (List ℕ × List ℕ)) };

    /// The names asked so far, in order, where the shelf tells them.
    ghost asked: { Self → Option (List (List ℕ)) };

    /// The count of faults.
    ghost faults: { Self → ℕ };

    /// Fetches the bytes under a name, at most `most` of them.
    ///
    /// A fetch that answers neither `Failed` nor `Memory` answers `TooLong` exactly where there are more than
    /// `most` bytes, and else these bytes. `Failed` comes only where the count of faults rose in this fetch.
    /// Each fetch but one that answers `Memory` adds its name to the names asked.
    fn fetch(&mut self, alloc: Global, name: &Txt, most: u64) -> Fetch
        ensures found { Fetched (files self.old) name.now most result }
        ensures same { files self.new ≡ files self.old }
        ensures asks { Asks (asked self.old) name.now result (asked self.new) }
        ensures later { faults self.old ≤ faults self.new }
        ensures failed { result ≡ Fetch.Failed → Rose (faults self.old) (faults self.new) }
        ensures memory { result ≡ Fetch.Memory → faults self.new ≡ faults self.old };
}
