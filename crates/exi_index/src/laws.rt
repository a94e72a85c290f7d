//! What holds between hint text and the numbers that it says. Each law is a function that does nothing: what it ensures
//! is the law.

ghost use Rattle.exi_index.specs.Laws.{ReadIsSpelled, SpelledIsRead, WrittenIsRead};

/// A text that is read says the numbers, line by line, and has no more lines than a text may have.
pub fn read_is_spelled()
    ensures { ReadIsSpelled }
{}

/// A text that says numbers, line by line, is read as them.
pub fn spelled_is_read()
    ensures { SpelledIsRead }
{}

/// What is printed of numbers is read as them, where there are no more than lines may be.
pub fn written_is_read()
    ensures { WrittenIsRead }
{}
