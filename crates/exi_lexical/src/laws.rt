//! The laws between the texts of values and the values. Each law is a function that does nothing: what it ensures
//! are the laws.

ghost use Rattle.exi_lexical.specs.Laws.{Base64IsByForm, HexIsRead, ValueComesBack, ValueHasItsText, ValueIsOfForm, WrittenIsRead};

/// The value of a text is one that the datatype has, and has a text itself.
pub fn read_is_of_the_form()
    ensures form { ValueIsOfForm }
    ensures text { ValueHasItsText }
{}

/// What is written is read: each value that a datatype has is the value of its canonical text, but for lists,
/// enumerations and names.
pub fn written_is_read()
    ensures { WrittenIsRead }
{}

/// The canonical text of a value that a text has, has that value, under every datatype.
pub fn value_comes_back()
    ensures { ValueComesBack }
{}

/// Octets and their digits.
pub fn digits_spell_octets()
    ensures base64 { Base64IsByForm }
    ensures hex { HexIsRead }
{}
