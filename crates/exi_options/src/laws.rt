//! What holds between options, how they are spelled and how they are read. Each law is a function that does nothing: what
//! it ensures is the law.

ghost use Rattle.exi_options.specs.Laws.{NoneIsPrefix, ReadIsSpelled, SpelledIsRead, WrittenIsRead, WrittenIsSpelled};

/// A document that is read spells what is told.
pub fn read_is_spelled()
    ensures { ReadIsSpelled }
{}

/// What is spelled so is read, whatever follows.
pub fn spelled_is_read()
    ensures { SpelledIsRead }
{}

/// No document is a proper prefix of another.
pub fn none_is_prefix()
    ensures { NoneIsPrefix }
{}

/// What is written of options tells them, whichever of them are told.
pub fn written_is_spelled()
    ensures { WrittenIsSpelled }
{}

/// What is written of options is read as them, whatever follows, where they exclude nothing.
pub fn written_is_read()
    ensures { WrittenIsRead }
{}
