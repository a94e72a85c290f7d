use exi_processing::End;
use exi_tape::Tape;

/// What came of a fragment: how reading it by itself ended, and its events.
///
/// A posting that is dropped takes its pages with it: [`Tape::give_back`] gives them to their pool.
#[derive(Drop)]
pub struct Posting {
    /// How reading ended, with what it charged.
    pub end: End,
    /// The events.
    pub tape: Tape,
}
