ghost use Rattle.std.specs.Prelude.{◌≡◌, ◌≤◌, List, ℕ, IfSome, length, take};

/// A piece of bytes that can be laid where it is wanted, so that it is not copied there.
pub trait Lay {
    /// Its bytes.
    ghost bytes: { Self → List ℕ };

    /// Lays it at the front of a room, and answers where it ends. There is no end where the room is too small or the piece
    /// is not of those that are laid; what the room then holds is not told.
    fn lay(&self, room: &mut [u8]) -> Option<usize>
        ensures len { length room.new ≡ length room.old }
        ensures within { IfSome result (λ end. end ≤ length room.new) }
        ensures laid { IfSome result (λ end. take end room.new ≡ bytes self.now) };
}
