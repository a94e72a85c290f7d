//! What holds between lines and the events that they say. Each law is a function that does nothing: what it ensures is
//! the law.

ghost use Rattle.exi_evtext.specs.Laws.{PrintedIsParsed, PrintedIsRead, ReadIsSpelled, SpelledIsRead, TextIsOne, TextIsRead, TextIsSpelled};

/// A line that is read as an event says that event, and each line of a text that is read says its event.
pub fn read_is_spelled()
    ensures line { ReadIsSpelled }
    ensures text { TextIsSpelled }
{}

/// A line that says an event is read as that event, and a text whose lines say events as these.
pub fn spelled_is_read()
    ensures line { SpelledIsRead }
    ensures text { TextIsRead }
{}

/// The lines that are printed of events say these events, and no others; so the text is read as these events.
pub fn written_is_read()
    ensures printed { PrintedIsRead }
    ensures parsed { PrintedIsParsed }
    ensures one { TextIsOne }
{}
