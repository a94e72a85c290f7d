//! What holds of a fragment that is written by itself. Each law is a function that does nothing: what it ensures is the law.

ghost use Rattle.exi_apart.specs.Parts.{ApartBegins, ApartEnters, ApartIsPart, ApartPuts, NamedBehindStart};

use exi_writing::laws::written_is_read;

/// A fragment that one writer writes by itself, event by event to its end, at whatever byte and behind whatever bits, is a part of
/// any list by the same options and schema (EXI 1.0, section 8.4.3): another writer, which stands at a fragment of an element of
/// that name, goes on behind it once it has taken it.
pub fn written_apart_is_part()
    ensures begins { ApartBegins }
    ensures puts { ApartPuts }
    ensures entered { ApartEnters }
    ensures named { NamedBehindStart }
    ensures part { ApartIsPart }
{
    written_is_read();
}
