//! The first word.

ghost use Rattle.std.specs.Prelude.{◌≡◌};
ghost use Rattle.exi_words.specs.Tables.{verb_of};

/// What a command does.
#[derive(Clone, Copy, Debug, PartialEq, Eq)]
pub(crate) enum Verb {
    /// It reads a stream.
    Read,
    /// It makes a stream's index.
    Index,
    /// It writes a stream.
    Write,
    /// It counts what a schema document declares.
    Schema,
    /// It makes an order, and writes and reads it.
    Gen,
}

/// What the command of this name does.
pub(crate) fn verb_of(name: &str) -> Option<Verb>
    ensures { result ≡ verb_of name.now }
{
    if name == "read" {
        Some(Verb::Read)
    } else if name == "index" {
        Some(Verb::Index)
    } else if name == "write" {
        Some(Verb::Write)
    } else if name == "schema" {
        Some(Verb::Schema)
    } else if name == "gen" {
        Some(Verb::Gen)
    } else {
        None
    }
}
