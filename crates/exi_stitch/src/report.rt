/// What a reading beside workers, or beside a desk, says of hints and postings.
#[derive(Debug, Drop)]
pub struct Report {
    /// How many hints were kept: those below the length of the input, each once. 0 where the caller made the board or the
    /// desk.
    pub hints: u64,
    /// The bytes at which a posting was used in place of reading the fragment, in order.
    pub used: Vec<u64>,
}
