/// What a seat finds at an offset: the word of the hint there, just before the arrival spent it.
#[derive(Debug, Drop)]
pub enum Arrival<P> {
    /// The word was 1: the hint was posted, and this is the posting.
    Posted(P),
    /// The word was 0: no seat had claimed the hint, and now none will.
    Mine,
    /// The word was 3 + s: the seat of this number s has claimed the hint, and has not settled it.
    Busy(u32),
    /// The word was 2: the hint had been spent before.
    Spent,
    /// The board has no hint of this offset. No word was changed.
    NotHinted,
}
