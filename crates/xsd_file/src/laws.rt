//! What holds of reading a schema document. Each law is a function that does nothing: what it ensures is the law.

ghost use Rattle.xsd_file.specs.Laws.{ADocumentIsThere, OneDocument};

use exi_processing::laws::{a_sequence_is_there, one_sequence};

/// Bytes make exactly one schema known, its components and their grammars, or are refused for exactly one reason.
pub fn one_document()
    ensures there { ADocumentIsThere }
    ensures one { OneDocument }
{
    a_sequence_is_there();
    one_sequence();
}
