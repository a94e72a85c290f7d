//! What a schema document declares, as counts.

ghost use Rattle.std.specs.Prelude.{◌≡◌, ◌≤◌, ◌∷◌, [], Some, IfOk, IsErrOf, length};
ghost use Rattle.exi_names.specs.Events.{Rose};
ghost use Rattle.exi_run.specs.Answers.{Did, DidLast, DidLines, GrowsByFront, Served};
ghost use Rattle.exi_run.specs.Dues.{Due, OwedOfDocument, count_line, count_lines, most_bytes};
ghost use Rattle.exi_run.specs.Refusals.{schema_line};
ghost use Rattle.exi_run.specs.Statuses.{IsTold};
ghost use Rattle.exi_run.specs.Tasks.{counting};
ghost use Rattle.xsd_file.specs.Words.{as_told};

use crate::ending::{push_kind, push_number};
use crate::files::fetch_file;
use crate::halt::{Halt, Refusal, Role};
use crate::status::Status;
use exi_names::Txt;
use exi_ports::{Shelf, Sink};
use std::alloc::{AllocError, Global};
use xsd_file::laws::one_document;
use xsd_file::{
    SchemaHalt, SchemaRefusal, attributes_counted, elements_counted, read_document, types_counted,
};
use xsd_model::Components;

/// The line of a schema document that is refused, with the line's end.
#[tactic(auto, unfolding(crate::specs::Refusals::schema_line))]
pub(crate) fn schema_line(alloc: Global, why: SchemaRefusal) -> Result<Vec<u8>, AllocError>
    ensures { IfOk result (λ text. text.items ≡ schema_line why) }
{
    let mut out = Vec::new(alloc);
    match why {
        SchemaRefusal::Stream(fault) => {
            out.extend_from_slice(b"schema NotSchema ")?;
            push_kind(&mut out, fault.kind)?;
            push_number(&mut out, b" ", fault.bit)?;
        }
        SchemaRefusal::Document(fault) => {
            out.extend_from_slice(b"schema ")?;
            out.extend_from_slice(fault.kind.word().as_bytes())?;
            push_number(&mut out, b" ", fault.event)?;
        }
    }
    out.push(b'\n')?;
    Ok(out)
}

/// The line of a count, with the line's end.
fn count_line(alloc: Global, word: &[u8], count: usize) -> Result<Vec<u8>, AllocError>
    ensures { IfOk result (λ text. text.items ≡ count_line word.now count) }
{
    let mut out = Vec::new(alloc);
    push_number(&mut out, word, count as u64)?;
    out.push(b'\n')?;
    Ok(out)
}

/// The line of a count, in one put.
fn put_count<O: Sink>(alloc: Global, word: &[u8], count: usize, out: &mut O) -> Result<(), Halt>
    ensures put { DidLast (count_line word.now count ∷ []) result (O.taken out.old) (O.taken out.new) }
    ensures later { O.faults out.old ≤ O.faults out.new }
    ensures write { IsErrOf result Halt.Write → Rose (O.faults out.old) (O.faults out.new) }
{
    let line = count_line(alloc, word, count)?;
    out.put(&line)?;
    Ok(())
}

/// How many components the whole schema knows by name, one line a kind.
fn put_counts<O: Sink>(alloc: Global, components: &Components, out: &mut O) -> Result<(), Halt>
    ensures put { DidLines (count_lines (as_told components.now)) result (O.taken out.old) (O.taken out.new) }
    ensures later { O.faults out.old ≤ O.faults out.new }
    ensures write { IsErrOf result Halt.Write → Rose (O.faults out.old) (O.faults out.new) }
{
    put_count(alloc, b"elements ", elements_counted(components), out)?;
    put_count(alloc, b"attributes ", attributes_counted(components), out)?;
    put_count(alloc, b"types ", types_counted(components), out)
}

/// What the bytes of a schema document declare, as counts.
fn count_bytes<O: Sink>(alloc: Global, bytes: &[u8], out: &mut O) -> Result<Status, Halt>
    requires few { length bytes.now ≤ most_bytes }
    ensures counted { (due : Due) × OwedOfDocument bytes.now due × Did due result (O.taken out.old) (O.taken out.new) }
    ensures later { O.faults out.old ≤ O.faults out.new }
    ensures write { IsErrOf result Halt.Write → Rose (O.faults out.old) (O.faults out.new) }
    ensures failed { IsErrOf result (Halt.Refused Refusal.ReadFailed) → ⊥ }
    ensures told { IfOk result IsTold }
{
    one_document();
    match read_document(alloc, bytes) {
        Ok(schema) => {
            put_counts(alloc, &schema.components, out)?;
            Ok(Status::Ok)
        }
        Err(SchemaHalt::Refused(why)) => Err(Halt::Refused(Refusal::Schema(why))),
        Err(SchemaHalt::Memory) => Err(Halt::Memory),
    }
}

/// What the schema document in a file declares, as counts.
pub(crate) fn count_document<F: Shelf, O: Sink>(
    alloc: Global,
    file: &Txt,
    shelf: &mut F,
    out: &mut O,
) -> Result<Status, Halt>
    ensures served { Served (Some (counting file.now)) (F.files shelf.old) (Rose (F.faults shelf.old) (F.faults shelf.new)) result (O.taken out.old) (O.taken out.new) }
    ensures asked { GrowsByFront (F.asked shelf.old) (file.now ∷ []) (F.asked shelf.new) }
    ensures later { O.faults out.old ≤ O.faults out.new }
    ensures write { IsErrOf result Halt.Write → Rose (O.faults out.old) (O.faults out.new) }
    ensures failed { IsErrOf result (Halt.Refused Refusal.ReadFailed) → Rose (F.faults shelf.old) (F.faults shelf.new) }
    ensures told { IfOk result IsTold }
{
    one_document();
    let input = fetch_file(alloc, shelf, file, Role::Schema)?;
    count_bytes(alloc, input.as_slice(), out)
}
