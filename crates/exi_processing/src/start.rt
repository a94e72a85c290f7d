/// Where reading begins.
#[derive(Clone, Copy, Debug, PartialEq, Eq)]
pub enum Start {
    /// At the body: a document, or a fragment, of which the options of the stream tell.
    Body,
    /// At this byte, counted from the head of the input: the fragment of a self-contained element, which stands
    /// there for itself (EXI 1.0, section 8.4.3).
    Fragment(u64),
}
