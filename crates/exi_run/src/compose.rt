//! A stream of an event text.

ghost use Rattle.std.specs.Prelude.{◌≡◌, ◌+◌, ◌<◌, ◌≤◌, ◌∷◌, ◌^◌, [], Option, Some, None, IfOk, IsErrOf, length, option_copied};
ghost use Rattle.exi_bits.specs.Bits.{IsBytes};
ghost use Rattle.exi_bits.specs.Written.{IsWholeBytes};
ghost use Rattle.exi_evtext.specs.Parsing.{events_left};
ghost use Rattle.exi_gram.specs.Outlines.{Outline};
ghost use Rattle.exi_gram.specs.Switches.{align_of};
ghost use Rattle.exi_names.specs.Events.{Rose};
ghost use Rattle.exi_options.specs.Writing.{IsNamable};
ghost use Rattle.exi_run.specs.Answers.{Composes, Finishes, Did, DidLast, DidWrite, GrowsByFront, OfDocument, Served, Stands, TakesAll};
ghost use Rattle.exi_run.specs.Dues.{Due, OwedOfBoth, OwedOfText, most_bytes};
ghost use Rattle.exi_run.specs.Statuses.{IsTold};
ghost use Rattle.exi_run.specs.Stops.{halt_for};
ghost use Rattle.exi_run.specs.Tasks.{IsReady, gathered, names_of, writing_task};
ghost use Rattle.exi_run.specs.Wishes.{Wish, head_bits, head_options, named_schema, setting_for, stream_bytes, wish_of};
ghost use Rattle.exi_writer.specs.Writing.{MayTake};

use crate::command::Writing;
use crate::files::fetch_file;
use crate::halt::{Halt, Refusal, Role};
use crate::status::Status;
use crate::stream::schema_in;
use crate::unwritten::Unwritten;
use exi_bits::BitOut;
use exi_evtext::{EventLines, EventRoom};
use exi_gram::{Book, Options, Schema, SchemaWord};
use exi_header::write_header;
use exi_meter::Limits;
use exi_names::{Octets, Txt};
use exi_ports::{Shelf, Sink};
use exi_steps::Steps;
use exi_tables::HashTables;
use exi_writer::{ListWriter, WriteFault};
use std::alloc::{AllocError, Global};
use std::marker::Brand;
use std::sync::ledger::{Blank, Ledger};
use xsd_file::book_by;
use xsd_file::laws::one_document;

/// Why a command stops whose events are not written.
fn halt_for(fault: WriteFault) -> Halt
    ensures { result ≡ halt_for fault }
{
    match fault {
        WriteFault::NotDerived { event } => {
            Halt::Refused(Refusal::Events(Unwritten::NotDerived(event)))
        }
        WriteFault::Limit { event, kind } => {
            Halt::Refused(Refusal::Events(Unwritten::Limit { event, kind }))
        }
        WriteFault::Memory => Halt::Memory,
    }
}

/// What a header tells of the schema: the name that the words give it, where the header tells options.
fn schema_word(alloc: Global, told: bool, name: Option<&str>) -> Result<SchemaWord, AllocError>
    ensures { IfOk result (λ w. w ≡ named_schema told (option_copied name.entry)) }
{
    match name {
        Some(name) if told => Ok(SchemaWord::Id(Txt::of(alloc, name)?)),
        Some(_) | None => Ok(SchemaWord::Absent),
    }
}

/// The options that a header tells.
fn head_options(alloc: Global, writing: &Writing<'_>) -> Result<Options, AllocError>
    ensures { IfOk result (λ o. o ≡ head_options (wish_of (gathered writing.now.given))) }
{
    let given = &writing.given;
    let schema = schema_word(alloc, given.told, given.schema)?;
    Ok(Options {
        schema,
        ..given.options()
    })
}

/// The header of a stream.
fn head_of(alloc: Global, writing: &Writing<'_>) -> Result<BitOut, AllocError>
    requires name { IsNamable (wish_of (gathered writing.now.given)).schema }
    ensures written { IfOk result (λ out. out ≡ head_bits (wish_of (gathered writing.now.given))) }
    ensures whole { IfOk result (λ out. IsWholeBytes (align_of (wish_of (gathered writing.now.given)).options) out) }
{
    let options = head_options(alloc, writing)?;
    write_header(alloc, &options, writing.given.told, writing.given.cookie)
}

/// Writes the events of the lines that are left. Behind one that is refused the lines are read on: a line that says no event comes
/// before all that is said of events. The steps that it counts are not looked at.
fn write_lines<L: Ledger>(
    alloc: Global,
    lines: &mut EventLines<'_>,
    list: &mut ListWriter<'_, HashTables>,
    blank: Blank,
) -> Result<(), Halt>
    requires name { blank.name ≡ L.name }
    requires parts { (blank.parts ≡ L.parts) × (blank.parts ≡ 1) }
    requires going { MayTake list.old }
    requires room { list.old.number + length lines.old.bytes < 2 ^ 64 }
    ensures { TakesAll result (events_left lines.old) list.old list.new }
{
    let mut steps = Steps::<L>::of(blank);
    let mut room = EventRoom::new(alloc);
    while lines.next_in(&mut room)? {
        list.push(room.event(), &mut steps);
    }
    Ok(())
}

/// What a stream is written by: the options of the words, and the schema that is known, if there is one.
fn book_of(alloc: Global, writing: &Writing<'_>, schema: Option<Schema>) -> Result<Book, AllocError>
    requires ready { IsReady (writing_task writing.now) }
    ensures { IfOk result (λ b. b ≡ setting_for (wish_of (gathered writing.now.given)) schema) }
{
    book_by(alloc, schema, writing.given.options())
}

/// The bits of a list that ends here, or why there are none.
fn finished(list: ListWriter<'_, HashTables>) -> Result<BitOut, Halt>
    ensures { Finishes result list.entry }
{
    match list.finish() {
        Ok(stream) => Ok(stream),
        Err(fault) => Err(halt_for(fault)),
    }
}

/// The bits of the stream of an event text behind this head, by this book. Its events are written one after another, as the lines
/// say them.
fn compose_by(alloc: Global, book: &Book, head: BitOut, text: &[u8]) -> Result<BitOut, Halt>
    requires aligned { IsWholeBytes (align_of book.now.options) head }
    ensures { (w : Wish) (known : Option Outline) → head ≡ head_bits w → book.now ≡ setting_for w known
        → Composes w known text.now result }
{
    let limits = Limits::of_stream();
    let mut list = ListWriter::<HashTables>::new(alloc, book, limits, head)?;
    let mut lines = EventLines::new(alloc, text);
    write_lines::<Brand>(alloc, &mut lines, &mut list, Blank::new(1))?;
    finished(list)
}

/// The same by a schema that is known, if there is one.
fn compose(
    alloc: Global,
    writing: &Writing<'_>,
    schema: Option<Schema>,
    text: &[u8],
) -> Result<BitOut, Halt>
    requires ready { IsReady (writing_task writing.now) }
    ensures { Composes (wish_of (gathered writing.now.given)) schema text.now result }
{
    let head = head_of(alloc, writing)?;
    let book = book_of(alloc, writing, schema)?;
    compose_by(alloc, &book, head, text)
}

/// Bytes, in one put.
fn put_bytes<O: Sink>(piece: &[u8], out: &mut O) -> Result<(), Halt>
    ensures put { DidLast (piece.now ∷ []) result (O.taken out.old) (O.taken out.new) }
    ensures octets { IsBytes piece.now }
    ensures later { O.faults out.old ≤ O.faults out.new }
    ensures write { IsErrOf result Halt.Write → Rose (O.faults out.old) (O.faults out.new) }
{
    out.put(piece)?;
    Ok(())
}

/// A stream, in one put.
fn put_stream<O: Sink>(stream: &BitOut, out: &mut O) -> Result<(), Halt>
    ensures put { DidLast (stream_bytes stream.now ∷ []) result (O.taken out.old) (O.taken out.new) }
    ensures later { O.faults out.old ≤ O.faults out.new }
    ensures write { IsErrOf result Halt.Write → Rose (O.faults out.old) (O.faults out.new) }
{
    put_bytes(stream.bytes(), out)
}

/// The stream of an event text, by a schema that is known, if there is one.
fn write_text<O: Sink>(
    alloc: Global,
    writing: &Writing<'_>,
    schema: Option<Schema>,
    text: &[u8],
    out: &mut O,
) -> Result<Status, Halt>
    requires ready { IsReady (writing_task writing.now) }
    ensures written { DidWrite (wish_of (gathered writing.now.given)) schema text.now result (O.taken out.old) (O.taken out.new) }
    ensures later { O.faults out.old ≤ O.faults out.new }
    ensures write { IsErrOf result Halt.Write → Rose (O.faults out.old) (O.faults out.new) }
    ensures failed { IsErrOf result (Halt.Refused Refusal.ReadFailed) → ⊥ }
    ensures told { IfOk result IsTold }
{
    let stream = compose(alloc, writing, schema, text)?;
    put_stream(&stream, out)?;
    Ok(Status::Ok)
}

/// The stream of the event text in a file, without a schema's document.
fn write_plain<F: Shelf, O: Sink>(
    alloc: Global,
    writing: &Writing<'_>,
    shelf: &mut F,
    out: &mut O,
) -> Result<Status, Halt>
    requires ready { IsReady (writing_task writing.now) }
    requires plain { option_copied writing.now.given.document ≡ None }
    ensures served { Served (Some (writing_task writing.now)) (F.files shelf.old) (Rose (F.faults shelf.old) (F.faults shelf.new)) result (O.taken out.old) (O.taken out.new) }
    ensures asked { GrowsByFront (F.asked shelf.old) (names_of (Some (writing_task writing.now))) (F.asked shelf.new) }
    ensures later { O.faults out.old ≤ O.faults out.new }
    ensures write { IsErrOf result Halt.Write → Rose (O.faults out.old) (O.faults out.new) }
    ensures failed { IsErrOf result (Halt.Refused Refusal.ReadFailed) → Rose (F.faults shelf.old) (F.faults shelf.new) }
    ensures told { IfOk result IsTold }
    ensures stands { IfOk result (λ s. OfDocument (Some (writing_task writing.now)) (F.files shelf.old) Stands) }
{
    let input = fetch_file(alloc, shelf, writing.file, Role::Input)?;
    write_text(alloc, writing, None, input.as_slice(), out)
}

/// The stream of an event text, by the schema that a document makes known.
fn write_by<O: Sink>(
    alloc: Global,
    writing: &Writing<'_>,
    document: Octets,
    text: &[u8],
    out: &mut O,
) -> Result<Status, Halt>
    requires document { length document ≤ most_bytes }
    requires ready { IsReady (writing_task writing.now) }
    ensures written { (due : Due) × OwedOfBoth (OwedOfText (wish_of (gathered writing.now.given))) document text.now due × Did due result (O.taken out.old) (O.taken out.new) }
    ensures later { O.faults out.old ≤ O.faults out.new }
    ensures write { IsErrOf result Halt.Write → Rose (O.faults out.old) (O.faults out.new) }
    ensures failed { IsErrOf result (Halt.Refused Refusal.ReadFailed) → ⊥ }
    ensures told { IfOk result IsTold }
    ensures stands { IfOk result (λ s. Stands document) }
{
    one_document();
    let schema = schema_in(alloc, document)?;
    write_text(alloc, writing, Some(schema), text, out)
}

/// The stream of the event text in a file with a schema's document in another, which is fetched first.
fn write_informed<F: Shelf, O: Sink>(
    alloc: Global,
    writing: &Writing<'_>,
    document: &str,
    shelf: &mut F,
    out: &mut O,
) -> Result<Status, Halt>
    requires ready { IsReady (writing_task writing.now) }
    requires informed { option_copied writing.now.given.document ≡ Some document.now }
    ensures served { Served (Some (writing_task writing.now)) (F.files shelf.old) (Rose (F.faults shelf.old) (F.faults shelf.new)) result (O.taken out.old) (O.taken out.new) }
    ensures asked { GrowsByFront (F.asked shelf.old) (names_of (Some (writing_task writing.now))) (F.asked shelf.new) }
    ensures later { O.faults out.old ≤ O.faults out.new }
    ensures write { IsErrOf result Halt.Write → Rose (O.faults out.old) (O.faults out.new) }
    ensures failed { IsErrOf result (Halt.Refused Refusal.ReadFailed) → Rose (F.faults shelf.old) (F.faults shelf.new) }
    ensures told { IfOk result IsTold }
    ensures stands { IfOk result (λ s. OfDocument (Some (writing_task writing.now)) (F.files shelf.old) Stands) }
{
    one_document();
    let name = Txt::of(alloc, document)?;
    let document = fetch_file(alloc, shelf, &name, Role::Schema)?;
    let text = fetch_file(alloc, shelf, writing.file, Role::Input)?;
    write_by(alloc, writing, document, text.as_slice(), out)
}

/// The stream of the event text in a file. Nothing of it is put before all of it is known.
pub(crate) fn write_stream<F: Shelf, O: Sink>(
    alloc: Global,
    writing: &Writing<'_>,
    shelf: &mut F,
    out: &mut O,
) -> Result<Status, Halt>
    requires ready { IsReady (writing_task writing.now) }
    ensures served { Served (Some (writing_task writing.now)) (F.files shelf.old) (Rose (F.faults shelf.old) (F.faults shelf.new)) result (O.taken out.old) (O.taken out.new) }
    ensures asked { GrowsByFront (F.asked shelf.old) (names_of (Some (writing_task writing.now))) (F.asked shelf.new) }
    ensures later { O.faults out.old ≤ O.faults out.new }
    ensures write { IsErrOf result Halt.Write → Rose (O.faults out.old) (O.faults out.new) }
    ensures failed { IsErrOf result (Halt.Refused Refusal.ReadFailed) → Rose (F.faults shelf.old) (F.faults shelf.new) }
    ensures told { IfOk result IsTold }
    ensures stands { IfOk result (λ s. OfDocument (Some (writing_task writing.now)) (F.files shelf.old) Stands) }
{
    match writing.given.document {
        Some(document) => write_informed(alloc, writing, document, shelf, out),
        None => write_plain(alloc, writing, shelf, out),
    }
}
