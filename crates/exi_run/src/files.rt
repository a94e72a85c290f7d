ghost use Rattle.std.specs.Prelude.{◌≡◌, ◌≤◌, ◌∷◌, [], Err, IfOk, IsErrOf};
ghost use Rattle.exi_names.specs.Events.{Grows, Rose};
ghost use Rattle.exi_run.specs.Answers.{Fetches, GrowsByFront};

use crate::halt::{Halt, Refusal, Role};
use exi_names::{Octets, Txt};
use exi_ports::{Fetch, Shelf};
use std::alloc::Global;

/// The greatest length of a file, in bytes: 64 MiB.
pub(crate) const MOST_BYTES: u64 = 67_108_864;

/// The bytes of a file.
///
/// # Errors
///
/// `Refused` where the file can't be read, or is longer than 64 MiB; `Memory`.
pub(crate) fn fetch_file<F: Shelf>(
    alloc: Global,
    shelf: &mut F,
    name: &Txt,
    role: Role,
) -> Result<Octets, Halt>
    ensures fetched { Fetches (F.files shelf.old) (Rose (F.faults shelf.old) (F.faults shelf.new)) name.now role result }
    ensures asked { GrowsByFront (F.asked shelf.old) (name.now ∷ []) (F.asked shelf.new) }
    ensures found { IfOk result (λ bytes. Grows (F.asked shelf.old) (name.now ∷ []) (F.asked shelf.new)) }
    ensures same { F.files shelf.new ≡ F.files shelf.old }
    ensures later { F.faults shelf.old ≤ F.faults shelf.new }
    ensures failed { IsErrOf result (Halt.Refused Refusal.ReadFailed) → Rose (F.faults shelf.old) (F.faults shelf.new) }
{
    match shelf.fetch(alloc, name, MOST_BYTES) {
        Fetch::Bytes(bytes) => Ok(bytes),
        Fetch::TooLong => Err(Halt::Refused(Refusal::TooLong(role))),
        Fetch::Failed => Err(Halt::Refused(Refusal::ReadFailed)),
        Fetch::Memory => Err(Halt::Memory),
    }
}
