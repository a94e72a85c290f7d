use crate::posting::Posting;

/// A posting and the byte of its fragment.
#[derive(Drop)]
pub struct Held {
    /// The byte at which the fragment begins.
    pub byte: u64,
    /// What came of it.
    pub posting: Posting,
}
