ghost use Rattle.std.specs.Prelude.{◌≡◌, ◌≤◌, List, ℕ, Option, OnOk, IsErrOf, IsTrue};
ghost use Rattle.exi_names.specs.Events.{Rose, Grows};
ghost use Rattle.exi_ports.specs.Ports.{GrowsInPart};

use crate::lay::Lay;
use thiserror::Error;

/// Why a put stopped.
#[derive(Clone, Copy, Debug, PartialEq, Eq, Error)]
pub enum SinkStop {
    /// A fault of the sink: its count of faults rose in this call.
    #[error("the output failed")]
    Failed,
    /// No memory was found; the sink is as before.
    #[error("no memory for the output")]
    Memory,
}

/// Where bytes go, piece by piece.
///
/// A contract sees two things of a sink: the bytes taken so far, where it tells them, and a count of faults.
/// The count never falls, and one that stands at 2^64 - 1 stays there.
pub trait Sink {
    /// The bytes taken so far, where the sink tells them.
    ghost taken: { Self → Option (List ℕ) };

    /// The count of faults.
    ghost faults: { Self → ℕ };

    /// Takes one piece, after all that was taken before.
    ///
    /// # Errors
    ///
    /// - `Failed`: a front of the piece was taken, from nothing to all of it, and the count of faults rose.
    /// - `Memory`: nothing was taken, and the count is as before.
    fn put(&mut self, piece: &[u8]) -> Result<(), SinkStop>
        ensures ok { OnOk result (Grows (taken self.old) piece.now (taken self.new)) }
        ensures part { IsErrOf result SinkStop.Failed → GrowsInPart (taken self.old) piece.now (taken self.new) }
        ensures memory { IsErrOf result SinkStop.Memory → taken self.new ≡ taken self.old }
        ensures later { faults self.old ≤ faults self.new }
        ensures failed { IsErrOf result SinkStop.Failed → Rose (faults self.old) (faults self.new) }
        ensures unmoved { IsErrOf result SinkStop.Memory → faults self.new ≡ faults self.old };

    /// Takes one piece after all that was taken before, as [`Sink::put`] does, but lays it at once where it waits. False
    /// where the sink has no such place, or no room in it: nothing was taken, and the piece is still to be put.
    fn lay<P: Lay>(&mut self, piece: &P) -> bool
        ensures taken { IsTrue result → Grows (taken self.old) (P.bytes piece.now) (taken self.new) }
        ensures same { ¬ (IsTrue result) → taken self.new ≡ taken self.old }
        ensures unmoved { faults self.new ≡ faults self.old };
}
