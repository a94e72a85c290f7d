ghost use Rattle.std.specs.Prelude.{◌≡◌, ◌≤◌, ◌<◌, ◌-◌, ◌++◌, ◌↔◌, None, IsErrOf, IsOk, IfOk, OnOk, IsTrue, [], length, take};
ghost use Rattle.std.specs.Io.KnownBytes.{Appends, Keeps, append_known};
ghost use Rattle.exi_names.specs.Events.{Rose, Grows};
ghost use Rattle.exi_ports.specs.Ports.{GrowsInPart};
ghost use Rattle.exi_ports.specs.Edge.{untold, TakesPiece, IsRest, faults_after_put};

use crate::lay::Lay;
use crate::sink::{Sink, SinkStop};
use crate::waiting::{BUFFER, Waiting};
use std::alloc::{AllocError, Global};
use std::io;
use std::io::Write;
use std::marker::Model;

/// Standard output, written in large parts.
///
/// Small pieces wait in a buffer of 64 KiB, which is written out when the next piece has no room in it, and by
/// [`OutSink::finish`] at the end. A piece larger than the buffer is written straight after what waits. A write
/// that fails or takes nothing is a fault of the put, or of the finish, that made it: its piece may then be
/// written in part, and what still waits goes on waiting, so that no byte is written twice or out of order.
///
/// What reaches the output is not told. A contract sees the bytes that wait and the count of faults.
#[derive(Drop)]
pub struct OutSink<'a, R: Print> {
    rt: &'a R,
    waiting: Waiting,
    faults: u64,
}

impl<'a, R: Print> Model for OutSink<'a, R> {
    ghost use Rattle.exi_ports.specs.Edge.{OutState};

    ghost Value = { OutState };

    ghost view = { λ s. record { waiting = s.waiting; faults = s.faults } };
}

impl<'a, R: Print> OutSink<'a, R> {
    /// A sink with no fault so far. It takes the memory of its buffer, and no call after it takes any.
    ///
    /// # Errors
    ///
    /// No memory.
    pub fn new(alloc: Global, rt: &'a R) -> Result<OutSink<'a, R>, AllocError>
        ensures { IfOk result (λ s. s ≡ record { waiting = []; faults = 0 }) }
    {
        Ok(OutSink {
            rt,
            waiting: Waiting::new(alloc)?,
            faults: 0,
        })
    }

    /// How many puts and finishes failed.
    pub fn faults(&self) -> u64
        ensures { result ≡ self.now.faults }
    {
        self.faults
    }

    /// Writes out what waits. After `Ok` nothing waits any more.
    ///
    /// # Errors
    ///
    /// `Failed`: a write failed or took nothing; the bytes that it left still wait, and the count of faults rose.
    pub fn finish(&mut self) -> Result<(), SinkStop>
        ensures written { OnOk result (self.new.waiting ≡ []) }
        ensures rest { IsRest self.new.waiting self.old.waiting }
        ensures counts { self.new.faults ≡ faults_after_put self.old.faults result }
        ensures frugal { ¬ (IsErrOf result SinkStop.Memory) }
    {
        let written = write_out(&mut io::writer(self.rt), &mut self.waiting);
        self.counted(written)
    }

    /// Counts a fault where not all was taken.
    #[inline(always)]
    fn counted(&mut self, taken: bool) -> Result<(), SinkStop>
        ensures same { self.new.waiting ≡ self.old.waiting }
        ensures counts { self.new.faults ≡ faults_after_put self.old.faults result }
        ensures later { self.old.faults ≤ self.new.faults }
        ensures ok { IsOk result ↔ IsTrue taken }
        ensures failed { IsErrOf result SinkStop.Failed → ¬ (IsTrue taken) }
        ensures frugal { ¬ (IsErrOf result SinkStop.Memory) }
    {
        if taken {
            return Ok(());
        }
        self.faults = self.faults.saturating_add(1);
        Err(SinkStop::Failed)
    }
}

impl<'a, R: Print> Sink for OutSink<'a, R> {
    ghost taken = { λ _. None };

    ghost faults = { λ s. s.faults };

    /// Lets the piece wait, or writes it. It takes no memory, so it never answers `Memory`.
    #[inline(always)]
    fn put(&mut self, piece: &[u8]) -> Result<(), SinkStop>
        ensures ok { OnOk result (Grows untold piece.now untold) }
        ensures part { IsErrOf result SinkStop.Failed → GrowsInPart untold piece.now untold }
        ensures memory { IsErrOf result SinkStop.Memory → untold ≡ untold }
        ensures later { self.old.faults ≤ self.new.faults }
        ensures failed { IsErrOf result SinkStop.Failed → Rose self.old.faults self.new.faults }
        ensures unmoved { IsErrOf result SinkStop.Memory → self.new.faults ≡ self.old.faults }

        // This sink tells what waits: the piece behind what waited, or alone, or nothing.
        ensures behind { OnOk result (length piece.now ≤ BUFFER - length self.old.waiting → self.new.waiting ≡ self.old.waiting ++ piece.now) }
        ensures alone { OnOk result (BUFFER - length self.old.waiting < length piece.now → length piece.now ≤ BUFFER → self.new.waiting ≡ piece.now) }
        ensures straight { OnOk result (BUFFER < length piece.now → self.new.waiting ≡ []) }
        ensures rest { IsErrOf result SinkStop.Failed → IsRest self.new.waiting self.old.waiting }
        ensures counts { self.new.faults ≡ faults_after_put self.old.faults result }
        ensures frugal { ¬ (IsErrOf result SinkStop.Memory) }
    {
        let taken = gather(&mut io::writer(self.rt), &mut self.waiting, piece);
        self.counted(taken)
    }

    /// Lets the piece wait, where there is room.
    #[inline(always)]
    fn lay<P: Lay>(&mut self, piece: &P) -> bool
        ensures taken { IsTrue result → Grows untold (P.bytes piece.now) untold }
        ensures same { ¬ (IsTrue result) → untold ≡ untold }
        ensures unmoved { self.new.faults ≡ self.old.faults }

        // This sink tells what waits.
        ensures behind { IsTrue result → self.new.waiting ≡ self.old.waiting ++ P.bytes piece.now }
        ensures none { ¬ (IsTrue result) → self.new ≡ self.old }
    {
        self.waiting.lay(piece)
    }
}

/// Takes a piece: it waits where there is room, and is written behind what waits where it is too large to wait.
///
/// What was taken are the bytes that the writer holds and then those that wait. False means that a write failed.
#[inline(always)]
fn gather<W: Write>(to: &mut W, waiting: &mut Waiting, piece: &[u8]) -> bool
    ensures piece { TakesPiece (append_known (W.contents to.old) waiting.old) (append_known (W.contents to.new) waiting.new) piece.now result }
    ensures behind { IsTrue result → length piece.now ≤ BUFFER - length waiting.old → waiting.new ≡ waiting.old ++ piece.now }
    ensures alone { IsTrue result → BUFFER - length waiting.old < length piece.now → length piece.now ≤ BUFFER → waiting.new ≡ piece.now }
    ensures straight { IsTrue result → BUFFER < length piece.now → waiting.new ≡ [] }
    ensures rest { ¬ (IsTrue result) → IsRest waiting.new waiting.old }
{
    if piece.len() > BUFFER - waiting.len() {
        if !write_out(to, waiting) {
            return false;
        }
        if piece.len() > BUFFER {
            return write_run(to, piece) == piece.len();
        }
    }
    waiting.push(piece);
    true
}

/// Writes what waits; what could not be written waits on. True means that nothing waits any more.
#[cold]
#[inline(never)]
fn write_out<W: Write>(to: &mut W, waiting: &mut Waiting) -> bool
    ensures kept { Keeps (append_known (W.contents to.old) waiting.old) (append_known (W.contents to.new) waiting.new) }
    ensures empty { IsTrue result → waiting.new ≡ [] }
    ensures rest { IsRest waiting.new waiting.old }
{
    let count = write_run(to, waiting.bytes());
    if count == waiting.len() {
        waiting.clear();
        return true;
    }
    waiting.drop_front(count);
    waiting.len() == 0
}

/// Writes bytes in order until none is left or a write fails or takes nothing, and answers how many were written.
#[cold]
#[inline(never)]
fn write_run<W: Write>(to: &mut W, bytes: &[u8]) -> usize
    ensures within { result ≤ length bytes.now }
    ensures written { Appends (W.contents to.old) (W.contents to.new) (take result bytes.now) }
{
    let mut done = 0;
    while done < bytes.len() {
        match to.write(&bytes[done..]) {
            Ok(0) | Err(_) => return done,
            Ok(count) => done += count,
        }
    }
    done
}
