ghost use Rattle.std.specs.Prelude.{◌≡◌, ◌+◌, ◌≤◌, ◌++◌, [], IfOk, IsTrue, drop, length};

use crate::lay::Lay;
use std::alloc::{AllocError, Global};
use std::marker::Model;

/// How many bytes may wait before they are written.
pub const BUFFER: usize = 65_536;

/// Bytes that wait, at the front of a room of 64 KiB. A contract sees them alone.
#[derive(Drop)]
pub struct Waiting {
    room: Vec<u8>,
    count: usize,
}

impl Model for Waiting {
    ghost use Rattle.std.specs.Prelude.{◌≡◌, ◌≤◌, List, ℕ, take, vec_len};
    ghost use Rattle.exi_ports.specs.declared.waiting.TheConstants.{BUFFER};

    ghost Value = { List ℕ };

    ghost view = { λ w. take w.count w.room.items };

    ghost invariant = { λ w. (vec_len w.room ≡ BUFFER) × (w.count ≤ BUFFER) };
}

impl Waiting {
    /// None. It takes the memory of its room, and no call after it takes any.
    pub fn new(alloc: Global) -> Result<Waiting, AllocError>
        ensures { IfOk result (λ w. w ≡ []) }
    {
        Ok(Waiting {
            room: Vec::from_elem(alloc, 0, BUFFER)?,
            count: 0,
        })
    }

    /// How many wait.
    #[inline(always)]
    pub fn len(&self) -> usize
        ensures count { result ≡ length self.now }
        ensures few { result ≤ BUFFER }
    {
        self.count
    }

    /// Those that wait.
    pub fn bytes(&self) -> &[u8]
        ensures { result.now ≡ self.now }
    {
        &self.room[..self.count]
    }

    /// None waits any more.
    pub fn clear(&mut self)
        ensures { self.new ≡ [] }
    {
        self.count = 0;
    }

    /// One more piece waits, for which there has to be room.
    #[inline(always)]
    pub fn push(&mut self, piece: &[u8])
        requires room { length self.old + length piece.now ≤ BUFFER }
        ensures { self.new ≡ self.old ++ piece.now }
    {
        let end = self.count + piece.len();
        self.room[self.count..end].copy_from_slice(piece);
        self.count = end;
    }

    /// One more piece waits, laid where it does. False where it is not laid; the same then wait.
    #[inline(always)]
    pub fn lay<P: Lay>(&mut self, piece: &P) -> bool
        ensures laid { IsTrue result → self.new ≡ self.old ++ P.bytes piece.now }
        ensures same { ¬ (IsTrue result) → self.new ≡ self.old }
    {
        match piece.lay(&mut self.room[self.count..]) {
            Some(end) => {
                self.count += end;
                true
            }
            None => false,
        }
    }

    /// The first of them, as many as that, wait no more.
    pub fn drop_front(&mut self, done: usize)
        requires { done ≤ length self.old }
        ensures { self.new ≡ drop done self.old }
    {
        self.room.rotate_left(done);
        self.count -= done;
    }
}
