/// What one character, an escape or a range of a pattern stands for.
#[derive(Clone, Copy, Debug)]
pub(crate) enum Member {
    /// The XML characters from one to another.
    Span(char, char),
    /// Tab, line feed, carriage return and space.
    Spaces,
    /// Characters that are not looked up.
    Others,
}
