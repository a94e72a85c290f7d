//! The lines of refusals.

ghost use Rattle.exi_run.specs.Printing.{PutsText};
ghost use Rattle.exi_run.specs.Refusals.{refusal_line, schema_line, unwritten_line};

use crate::count::schema_line;
use crate::halt::Refusal;
use crate::unwritten::Unwritten;
use exi_ports::{Sink, SinkStop};
use std::alloc::Global;
use xsd_file::SchemaRefusal;

/// The line of an event text that is not written, in one put.
fn put_unwritten<O: Sink>(alloc: Global, out: &mut O, why: Unwritten) -> Result<(), SinkStop>
    ensures { PutsText (unwritten_line why) result (O.taken out.old) (O.faults out.old) (O.taken out.new) (O.faults out.new) }
{
    let Ok(line) = why.line(alloc) else {
        return Err(SinkStop::Memory);
    };
    out.put(&line)
}

/// The line of a schema document that is refused, in one put.
fn put_schema<O: Sink>(alloc: Global, out: &mut O, why: SchemaRefusal) -> Result<(), SinkStop>
    ensures { PutsText (schema_line why) result (O.taken out.old) (O.faults out.old) (O.taken out.new) (O.faults out.new) }
{
    let Ok(line) = schema_line(alloc, why) else {
        return Err(SinkStop::Memory);
    };
    out.put(&line)
}

/// The line of a refusal, in one put.
pub(crate) fn put_refusal<O: Sink>(
    alloc: Global,
    out: &mut O,
    refusal: Refusal,
) -> Result<(), SinkStop>
    ensures { PutsText (refusal_line refusal) result (O.taken out.old) (O.faults out.old) (O.taken out.new) (O.faults out.new) }
{
    match refusal {
        Refusal::Usage => out.put(b"usage\n"),
        Refusal::ReadFailed => out.put(b"read failed\n"),
        Refusal::TooLong(role) => out.put(role.too_long()),
        Refusal::Events(why) => put_unwritten(alloc, out, why),
        Refusal::Schema(why) => put_schema(alloc, out, why),
    }
}
