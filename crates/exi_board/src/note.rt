ghost use Rattle.std.specs.Prelude.{ℕ, List};

/// What a board of postings `P` promises of them. It has no function, and is known to contracts alone.
///
/// A value of it is handed to [`Board::new`](crate::Board::new), and holds what the two meanings speak of, such as a
/// reference to the job whose pieces are posted.
pub trait Note<P> {
    /// Whether this posting may stand under a hint of this offset. [`Board::post`](crate::Board::post) asks for it, and
    /// [`Board::arrive`](crate::Board::arrive) promises it.
    ghost fits: { Self → ℕ → P → Type 0 };

    /// The numbers of the pages that a posting carries, as a seat's view lists them.
    ghost pages: { P → List ℕ };
}
