use crate::end::End;

/// What became of a reader at a fragment that was read by itself.
#[derive(Debug, Drop)]
pub enum Spliced {
    /// It goes on behind the fragment.
    On,
    /// It has ended as the fragment did, by its fault.
    Ended(End),
    /// It has ended by `ScRoot`: the fragment is that of another element than the one in which it stands.
    WrongRoot(End),
}
