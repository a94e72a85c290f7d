//! What holds of writing. Each law is a function that does nothing: what it ensures is the law.

ghost use Rattle.exi_writer.specs.Same.{ListIsSame, ListIsSameText, OneIsSame, OneIsSameText, TypedIsOne};

/// What is written is read as the same: one event, and a list, event by event, but for what the options leave out. SC tells
/// the byte at which its fragment begins; a name stays the name, and any other value is the one that its canonical text has
/// under the datatype of the production by which it was written.
pub fn written_is_same()
    ensures one { OneIsSame }
    ensures list { ListIsSame }
{}

/// The same without a schema, where a value that is no name is its canonical text.
pub fn written_is_same_text()
    ensures one { OneIsSameText }
    ensures list { ListIsSameText }
{}

/// The value that a value's canonical text has under the datatype of the production by which it was written is one alone.
pub fn typed_is_one()
    ensures { TypedIsOne }
{}
