/// Why a hint was given up.
#[derive(Clone, Copy, Debug, PartialEq, Eq)]
pub(crate) enum Loss {
    /// The pool had no page left.
    Full,
    /// Memory was refused, or an event is too long for a tape.
    Memory,
    /// The hint lies after the end of the input.
    Outside,
}

/// What became of a hint that was claimed.
#[derive(Clone, Copy, Debug, PartialEq, Eq)]
pub(crate) enum Fate {
    /// Its outcome was posted.
    Posted,
    /// Its outcome came too late.
    Late,
    /// It was given up.
    GivenUp(Loss),
}
