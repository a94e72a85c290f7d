/// What was counted: events, units of text, and the most elements that were open at once.
#[derive(Clone, Copy, Debug, PartialEq, Eq)]
pub struct Tally {
    /// How many events there were.
    pub events: u64,
    /// How many units of text they carried.
    pub text: u64,
    /// The most elements that were open at one time.
    pub deepest: u32,
}
