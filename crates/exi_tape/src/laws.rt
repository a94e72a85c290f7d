//! What holds of the bytes that spell events. Each law is a function that does nothing: what it ensures is the law.

ghost use Rattle.std.specs.Prelude.{◌≡◌};
ghost use Rattle.exi_tape.specs.Laws.{ListsAreRead, SpelledIsRead, WithinWeight};

use crate::tape::Tape;

/// Whatever bytes come after those that spell an event, the event is read and these bytes are left. So no spelling is
/// a front of another.
pub fn spelled_is_read()
    ensures { SpelledIsRead }
{}

/// Events that are spelled one after another are read, each of them and no other.
pub fn lists_are_read()
    ensures { ListsAreRead }
{}

/// No event is spelled by more bytes than its weight.
pub fn within_weight()
    ensures { WithinWeight }
{}

/// Threads may share a tape to play.
pub fn tape_is_shared(tape: &Tape) {
    shared(tape);
}

/// A tape may go to another thread, with its pages.
pub fn tape_is_sent(tape: Tape) -> Tape
    ensures same { result ≡ tape }
{
    sent(tape)
}

// Takes what threads may share.
fn shared<T: Sync>(_value: &T) {}

// Takes what may go to another thread.
fn sent<T: Send>(value: T) -> T
    ensures same { result ≡ value }
{
    value
}
