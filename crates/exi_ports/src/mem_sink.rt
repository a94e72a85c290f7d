ghost use Rattle.std.specs.Prelude.{◌≡◌, ◌≤◌, ◌++◌, ◌∷◌, [], Some, OnOk, OnErr, IsErrOf, IsTrue, false};
ghost use Rattle.exi_names.specs.Events.{Rose, Grows};
ghost use Rattle.exi_ports.specs.Ports.{GrowsInPart};

use crate::lay::Lay;
use crate::sink::{Sink, SinkStop};
use exi_names::Octets;
use std::alloc::{AllocError, Global};
use std::marker::Model;

/// A sink in memory that keeps what it takes, and fails at the calls that it was told.
///
/// Calls are counted from 1; one that answers `Memory` is not counted.
#[derive(Debug, Drop)]
pub struct MemSink {
    taken: Octets,
    fail: Vec<u64>,
    calls: u64,
    faults: u64,
}

impl Model for MemSink {
    ghost use Rattle.exi_ports.specs.Memory.{SinkState};

    ghost Value = { SinkState };

    ghost view = { λ s. record { taken = s.taken; fail = s.fail.items; calls = s.calls; faults = s.faults } };
}

impl MemSink {
    ghost use Rattle.exi_ports.specs.Memory.{SinkState};

    /// An empty sink that never fails.
    pub fn new(alloc: Global) -> MemSink
        ensures { result ≡ record { taken = []; fail = []; calls = 0; faults = 0 } }
    {
        MemSink {
            taken: Octets::new(alloc),
            fail: Vec::new(alloc),
            calls: 0,
            faults: 0,
        }
    }

    /// Lets the put with this number fail too.
    ///
    /// # Errors
    ///
    /// No memory; the sink is as before.
    pub fn fail_at(&mut self, call: u64) -> Result<(), AllocError>
        ensures ok { OnOk result (self.new ≡ record self.old { fail = self.old.fail ++ call ∷ [] }) }
        ensures err { OnErr result (self.new ≡ self.old) }
    {
        self.fail.push(call)?;
        Ok(())
    }

    /// The bytes taken so far.
    pub fn taken(&self) -> &Octets
        ensures { result.now ≡ self.now.taken }
    {
        &self.taken
    }

    /// How many puts were counted.
    pub fn calls(&self) -> u64
        ensures { result ≡ self.now.calls }
    {
        self.calls
    }

    /// How many puts failed.
    pub fn faults(&self) -> u64
        ensures { result ≡ self.now.faults }
    {
        self.faults
    }
}

impl Sink for MemSink {
    ghost use Rattle.exi_ports.specs.Memory.{IsNextToFail, after_put};

    ghost taken = { λ s. Some s.taken };

    ghost faults = { λ s. s.faults };

    /// Takes the piece, or at a call that is to fail the first half of it, rounded down.
    fn put(&mut self, piece: &[u8]) -> Result<(), SinkStop>
        ensures ok { OnOk result (Grows (Some self.old.taken) piece.now (Some self.new.taken)) }
        ensures part { IsErrOf result SinkStop.Failed → GrowsInPart (Some self.old.taken) piece.now (Some self.new.taken) }
        ensures memory { IsErrOf result SinkStop.Memory → Some self.new.taken ≡ Some self.old.taken }
        ensures later { self.old.faults ≤ self.new.faults }
        ensures failed { IsErrOf result SinkStop.Failed → Rose self.old.faults self.new.faults }
        ensures unmoved { IsErrOf result SinkStop.Memory → self.new.faults ≡ self.old.faults }

        // This sink tells more.
        ensures after { self.new ≡ after_put self.old piece.now result }
        ensures works { OnOk result (¬ IsNextToFail self.old.fail self.old.calls) }
        ensures fails { IsErrOf result SinkStop.Failed → IsNextToFail self.old.fail self.old.calls }
    {
        let call = self.calls.saturating_add(1);
        if self.fail.contains(&call) {
            if self.taken.add(&piece[..piece.len() / 2]).is_err() {
                return Err(SinkStop::Memory);
            }
            self.calls = call;
            self.faults = self.faults.saturating_add(1);
            return Err(SinkStop::Failed);
        }
        if self.taken.add(piece).is_err() {
            return Err(SinkStop::Memory);
        }
        self.calls = call;
        Ok(())
    }

    /// No piece is laid: each is put, and counted.
    fn lay<P: Lay>(&mut self, piece: &P) -> bool
        ensures taken { IsTrue result → Grows (Some self.old.taken) (P.bytes piece.now) (Some self.new.taken) }
        ensures same { ¬ (IsTrue result) → Some self.new.taken ≡ Some self.old.taken }
        ensures unmoved { self.new.faults ≡ self.old.faults }

        // This sink tells more.
        ensures none { result ≡ false }
        ensures unchanged { self.new ≡ self.old }
    {
        let _ = piece;
        false
    }
}
