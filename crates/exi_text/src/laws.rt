//! What is spelled and what is read are the same. Each law is a function that does nothing: what it
//! ensures is the law.

ghost use Rattle.exi_text.specs.Spelled.{CharsAreNoPrefix, CharsAreRead, CharsAreSpelled, CharsAreWritten};

/// What is read is spelled so.
pub fn read_is_spelled()
    ensures { CharsAreSpelled }
{}

/// What is spelled so is read, whatever follows.
pub fn spelled_is_read()
    ensures { CharsAreRead }
{}

/// No spelling is a proper prefix of another of as many characters, and each spells one text.
pub fn none_is_prefix()
    ensures { CharsAreNoPrefix }
{}

/// What is written is one of the spellings.
pub fn written_is_spelled()
    ensures { CharsAreWritten }
{}
