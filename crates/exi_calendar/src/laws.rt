//! What holds between the texts of a date or a time and its value. Each law is a function that does
//! nothing: what it ensures is the law.

ghost use Rattle.exi_calendar.specs.Laws.{CanonicalTextHasItsKind, CanonicalTextIsVisible, KindIsOne, RangesAreTheForm, ReadIsSpelled, SpelledIsRead, ValueComesBack, ValueIsOne, WrittenIsRead};

/// What is read is spelled so: a text that has a value is one of the texts of that value, its fields one after another as
/// the form of the kind writes them, each in its range.
pub fn read_is_spelled()
    ensures { ReadIsSpelled }
{}

/// What is spelled so is read.
pub fn spelled_is_read()
    ensures { SpelledIsRead }
{}

/// No text is one of the texts of two dates or times of a kind.
pub fn value_is_one()
    ensures { ValueIsOne }
{}

/// What is written is read: the canonical text of a date or a time in its ranges has it as its value.
pub fn written_is_read()
    ensures { WrittenIsRead }
{}

/// Every value that a text has comes back from its canonical text.
pub fn value_comes_back()
    ensures { ValueComesBack }
{}

/// The canonical text of a date or a time in its ranges has no white space, and ASCII alone.
pub fn canonical_text_is_visible()
    ensures { CanonicalTextIsVisible }
{}

/// The dates and times of a kind with all fields in their ranges are the values of that datatype.
pub fn ranges_are_the_form()
    ensures { RangesAreTheForm }
{}

/// A text has a value under one kind alone; so the canonical text of a date or a time has one under its own kind, and
/// no other.
pub fn kind_is_one()
    ensures text { KindIsOne }
    ensures canonical { CanonicalTextHasItsKind }
{}
