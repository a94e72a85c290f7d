//! What holds of the definition of writing. Each law is a function that does nothing: what it ensures is the law.

ghost use Rattle.exi_writing.specs.Laws.{ListIsRead, OneIsRead, OneIsSpelled};

use exi_processing::laws::{one_at_most, one_is_spelled, spelled_is_one};

/// One event that is written is one of its spellings, and leads to the configuration that reading leads to.
pub fn written_is_spelled()
    ensures law { OneIsSpelled }
{}

/// What is written is read: one event, whatever follows, and a list that is written to its end. It follows from the laws of
/// reading.
pub fn written_is_read()
    ensures one { OneIsRead }
    ensures list { ListIsRead }
{
    one_is_spelled();
    spelled_is_one();
    one_at_most();
}
