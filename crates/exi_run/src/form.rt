/// In which form a stream is told.
#[derive(Clone, Copy, Debug, PartialEq, Eq)]
pub enum Form {
    /// As text: a line for each event, and one for the end.
    Text,
    /// Where its self-contained elements begin: the byte of each, a line, and the line of a fault.
    Starts,
}
