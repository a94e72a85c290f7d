ghost use Rattle.std.specs.Prelude.{◌≡◌, ◌++◌, List, ℕ};
ghost use Rattle.exi_names.specs.Events.{Happening};
ghost use Rattle.xsd_file.specs.Bases.{Basis};
ghost use Rattle.exi_run.specs.Backs.{WrittenIsRead};
ghost use Rattle.exi_run.specs.declared.ending.Ending.{Ending};
ghost use Rattle.exi_run.specs.Wholes.{IsWhole, IsFront};
ghost use Rattle.exi_run.specs.Writable.{RefusedIsUnwritable, WrittenIsWritable};

use exi_processing::laws::{a_sequence_is_there, one_sequence};

/// Bytes have, by the options of the words and by a schema, if one is known, exactly one list of events, with one end.
pub fn one_whole()
    ensures there { (basis : Basis) (bytes : List ℕ) → (es : List Happening) × (e : Ending) × IsWhole basis bytes es e }
    ensures one { (basis : Basis) (bytes : List ℕ) (es fs : List Happening) (d e : Ending) → IsWhole basis bytes es d → IsWhole basis bytes fs e → (es ≡ fs) × (d ≡ e) }
{
    a_sequence_is_there();
    one_sequence();
}

/// First events of the bytes are the first of all of them.
pub fn front_of_whole()
    ensures { (basis : Basis) (bytes : List ℕ) (es fs : List Happening) (e : Ending) → IsFront basis bytes es → IsWhole basis bytes fs e → (rest : List Happening) × (fs ≡ es ++ rest) }
{
    one_sequence();
}

/// What is written of a text, by a schema or without one, is read again, to the last bit that was written: the events that the
/// options leave of those that the text says, one by one.
pub fn written_is_read()
    ensures { WrittenIsRead }
{
    exi_writing::laws::written_is_read();
    exi_writer::laws::written_is_same();
    exi_writer::laws::written_is_same_text();
    exi_gram::laws::without_schema_is_schema();
    exi_header::laws::written_is_read();
    exi_header::laws::cookie_is_asked();
}

/// A text is written exactly where it says a list of events that can be written, by the options and the schema and whatever limits
/// there are, and no limit of a stream is passed (EXI 1.0, sections 5.4, 6 and 8.5); else it is refused for what keeps it from that.
pub fn written_is_writable()
    ensures written { WrittenIsWritable }
    ensures refused { RefusedIsUnwritable }
{
    exi_derived::laws::derived_is_written();
    exi_derived::laws::refused_derives_not();
}
