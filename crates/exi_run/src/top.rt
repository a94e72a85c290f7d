ghost use Rattle.std.specs.Prelude.{◌≡◌, ◌≤◌, ◌≢◌, ◌⊎◌, IfOk, IfSome, IsErrOf, None, Option};
ghost use Rattle.exi_gram.specs.Outlines.{Outline};
ghost use Rattle.exi_names.specs.Events.{Rose};
ghost use Rattle.exi_run.specs.Answers.{Answered, AreWithin, Counts, Ends, GrowsByFront, HasDocument, HasLong, IsAnswered, IsBack, IsCounting, IsLater, IsWriting, OfDocument, OfStream, OfWriting, RefusalPut, RefusesDocument, Served, StandsFor, Starves, StarvesOnly, Tells, Writes, WritesNone};
ghost use Rattle.exi_run.specs.Dues.{refusal_due};
ghost use Rattle.exi_run.specs.Headline.{IsInOrder, ReadsAsProcessed, WritesIfTold};
ghost use Rattle.exi_run.specs.Statuses.{IsOr, IsTold};
ghost use Rattle.exi_run.specs.Tasks.{IsReadyIf, names_of, needs_of, task_of};
ghost use Rattle.exi_run.specs.Writable.{CanBeWritten, CanNotBeWritten};
ghost use Rattle.exi_run.specs.declared.form.Form.TheVariants as form;

use crate::command::{Command, command_in};
use crate::compose::write_stream;
use crate::count::count_document;
use crate::halt::{Halt, Refusal};
use crate::laws::{written_is_read, written_is_writable};
use crate::refuse::put_refusal;
use crate::status::Status;
use crate::stream::tell_stream;
use exi_names::Txt;
use exi_ports::{Gate, Shelf, Sink, SinkStop};
use std::alloc::Global;
use std::sync::Wait;
use std::thread::Threads;
use xsd_file::laws::one_document;

/// What the words ask for.
fn serve<F: Shelf, O: Sink>(
    alloc: Global,
    words: &[Txt],
    shelf: &mut F,
    out: &mut O,
) -> Result<Status, Halt>
    ensures served { Served (task_of words.now) (F.files shelf.old) (Rose (F.faults shelf.old) (F.faults shelf.new)) result (O.taken out.old) (O.taken out.new) }
    ensures asked { GrowsByFront (F.asked shelf.old) (names_of (task_of words.now)) (F.asked shelf.new) }
    ensures later { O.faults out.old ≤ O.faults out.new }
    ensures write { IsErrOf result Halt.Write → Rose (O.faults out.old) (O.faults out.new) }
    ensures failed { IsErrOf result (Halt.Refused Refusal.ReadFailed) → Rose (F.faults shelf.old) (F.faults shelf.new) }
    ensures told { IfOk result IsTold }
    ensures ready { IsReadyIf (task_of words.now) }
    ensures stands { IfOk result (λ s. StandsFor (task_of words.now) (F.files shelf.old)) }
{
    match command_in(words) {
        Some(Command::Tell(telling)) => tell_stream(alloc, &telling, shelf, out),
        Some(Command::Write(writing)) => write_stream(alloc, &writing, shelf, out),
        Some(Command::Count(file)) => count_document(alloc, file, shelf, out),
        None => Err(Halt::Refused(Refusal::Usage)),
    }
}

/// The line on want of memory.
fn starve<O: Sink>(out: &mut O) -> Status
    ensures starves { Starves result (O.taken out.old) (O.taken out.new) }
    ensures write { result ≡ Status.WriteFault → Rose (O.faults out.old) (O.faults out.new) }
{
    match out.put(b"no memory\n") {
        Ok(()) | Err(SinkStop::Memory) => Status::NoMemory,
        Err(SinkStop::Failed) => Status::WriteFault,
    }
}

/// The line of a refusal.
fn refuse<O: Sink>(alloc: Global, out: &mut O, refusal: Refusal) -> Status
    ensures answered { Answered (refusal_due refusal) result (O.taken out.old) (O.taken out.new) }
    ensures write { result ≡ Status.WriteFault → Rose (O.faults out.old) (O.faults out.new) }
    ensures read { result ≡ Status.ReadFault → refusal ≡ Refusal.ReadFailed }
{
    match put_refusal(alloc, out, refusal) {
        Ok(()) => refusal.status(),
        Err(SinkStop::Failed) => Status::WriteFault,
        Err(SinkStop::Memory) => starve(out),
    }
}

/// What the words ask for, and where that is refused or memory is wanting, the line that says so.
fn respond<F: Shelf, O: Sink>(alloc: Global, words: &[Txt], shelf: &mut F, out: &mut O) -> Status
    ensures answered { IsAnswered (task_of words.now) (F.files shelf.old) (Rose (F.faults shelf.old) (F.faults shelf.new)) result (O.taken out.old) (O.taken out.new) }
    ensures asked { GrowsByFront (F.asked shelf.old) (names_of (task_of words.now)) (F.asked shelf.new) }
    ensures write_fault { result ≡ Status.WriteFault → Rose (O.faults out.old) (O.faults out.new) }
    ensures read_fault { result ≡ Status.ReadFault → Rose (F.faults shelf.old) (F.faults shelf.new) }
    ensures ready { IsReadyIf (task_of words.now) }
    ensures stands { result ≡ Status.Ok → StandsFor (task_of words.now) (F.files shelf.old) }
{
    match serve(alloc, words, shelf, out) {
        Ok(status) => status,
        Err(Halt::Refused(refusal)) => refuse(alloc, out, refusal),
        Err(Halt::Write) => Status::WriteFault,
        Err(Halt::Memory) => starve(out),
    }
}

/// Does what the words ask for: `read FILE` reads an EXI stream and puts it as text, `index FILE` puts where its
/// self-contained elements begin; options that the stream's header leaves to the words stand beside FILE, and so may a file with a
/// schema's document, whose grammars the stream then goes by, unless its header says otherwise. `write FILE`
/// writes the stream of an event text, as `read` puts it without its last line, by the options of the words and by the grammars of a
/// schema's document, if one stands beside FILE. `schema FILE` reads a schema document, which is such a stream, and puts how many
/// elements, attributes and types it declares for the whole schema.
///
/// Each file is fetched from `shelf` once, at most 64 MiB of it, and all of them before any is read. Of `read`, `out` takes one line for each event and
/// then one for the end, `done BIT` or `fault KIND BIT`; of `index`, one line for each self-contained element, the byte
/// at which it begins, and then that of a fault. Each line is one put, and nothing more is put after one that fails.
/// Of `write`, `out` takes the whole stream in one put, or one line that says why there is none. Of `schema`, `out` takes three
/// lines, `elements N`, `attributes N` and `types N`. Where a schema's document is refused, `out` takes the one line that says why,
/// and no stream is read or written.
/// `rt` and `gate` are for workers, of which these commands have none yet.
pub fn run<R: Threads + Wait + Sync, F: Shelf, O: Sink, G: Gate>(
    _rt: &R,
    alloc: Global,
    words: &[Txt],
    shelf: &mut F,
    out: &mut O,
    _gate: &G,
) -> Status
    // The headline, of reading. Where no fetch failed, no file is too long and the schema's document, where one is given, is
    // refused for nothing, the sink took the text of exactly the events and the end that sequential processing gives for the bytes
    // of the file, by that schema; or, where the output broke or memory was wanting, first of it.
    ensures reads { OfStream form.Text (task_of words.now) (F.files shelf.old) (λ terms document bytes. (known : Option Outline) → IsInOrder (Rose (F.faults shelf.old) (F.faults shelf.new)) document bytes known → ReadsAsProcessed terms known bytes result (O.taken out.old) (O.taken out.new)) }

    // The headline, of writing. Under the same premises, and where the output did not break and memory was not wanting, the status is
    // Ok exactly where the text says a list of events that the grammars derive and no limit is passed; the sink then took a
    // stream that reads back as these events, typed, less those that the options leave out, and else one line that says why there is none.
    ensures writes { OfWriting (task_of words.now) (F.files shelf.old) (λ wish document text. (known : Option Outline) → IsInOrder (Rose (F.faults shelf.old) (F.faults shelf.new)) document text known → WritesIfTold wish known text result (O.taken out.old) (O.taken out.new)) }

    // In parts. The stream was read to its end or its fault: the sink took the text of exactly the events and the
    // end that sequential processing gives for the bytes of the file, by the schema of the document where one is given.
    ensures read { OfStream form.Text (task_of words.now) (F.files shelf.old) (λ terms document bytes. IsTold result → Tells form.Text terms result (O.taken out.old) (O.taken out.new) document bytes) }

    // The same for an index: exactly the bytes at which sequential processing meets self-contained elements, in order.
    ensures index { OfStream form.Starts (task_of words.now) (F.files shelf.old) (λ terms document bytes. IsTold result → Tells form.Starts terms result (O.taken out.old) (O.taken out.new) document bytes) }

    // With status Ok of `write` the sink took the header and the body that the definition of writing gives for the
    // events that the text says, by the schema of the document where one is given, and nothing else.
    ensures write { OfWriting (task_of words.now) (F.files shelf.old) (λ wish document text. result ≡ Status.Ok → Writes wish (O.taken out.old) (O.taken out.new) document text) }

    // Reading that stream by the same options and the same schema ends at the last bit that was written, and gives the events of the
    // text that the options leave, one by one: each value as the one that its canonical text has under the datatype by which it was
    // written, without a schema as that text. It is read so with its header too, where this tells no schema, or a name that is not
    // empty of the schema that is known, and by the same name.
    ensures read_back { OfWriting (task_of words.now) (F.files shelf.old) (λ wish document text. IsBack wish result document text) }

    // With status Events there is no such stream, and the sink took one line: the first line of the text that says no
    // event, or else the first event that no production stands for or that passes a limit. The schema's document, where one is given,
    // was not refused.
    ensures events { OfWriting (task_of words.now) (F.files shelf.old) (λ wish document text. result ≡ Status.Events → WritesNone wish (O.taken out.old) (O.taken out.new) document text) }
    ensures events_only { result ≡ Status.Events → IsWriting (task_of words.now) }

    // So status Ok comes exactly where the text says a list that can be written, by its options and schema and whatever limits there
    // are, and no limit of a stream is passed. What the line says holds of the list itself: no event is refused for want of a
    // production that any limits would let be written.
    ensures derived { OfWriting (task_of words.now) (F.files shelf.old) (λ wish document text. result ≡ Status.Ok → CanBeWritten wish document text) }
    ensures not_derived { OfWriting (task_of words.now) (F.files shelf.old) (λ wish document text. result ≡ Status.Events → CanNotBeWritten wish (O.taken out.old) (O.taken out.new) document text) }

    // Where memory runs out, nothing of a stream was put. So it is with a refusal, by the clause below.
    ensures starved { IsWriting (task_of words.now) → StarvesOnly result (O.taken out.old) (O.taken out.new) }

    // With status Ok of `schema` the sink took how many elements, attributes and types the document declares that the whole
    // schema knows by name: three lines, and nothing else.
    ensures schema { IsCounting (task_of words.now) → OfDocument (task_of words.now) (F.files shelf.old) (λ bytes. result ≡ Status.Ok → Counts (O.taken out.old) (O.taken out.new) bytes) }

    // With status Schema, of `schema` and of a stream that is read or written beside a schema's document, this is refused, and the
    // sink took one line: the fault of its stream, or else the document's first fault.
    ensures schema_refused { OfDocument (task_of words.now) (F.files shelf.old) (λ bytes. result ≡ Status.Schema → RefusesDocument (O.taken out.old) (O.taken out.new) bytes) }
    ensures schema_only { result ≡ Status.Schema → HasDocument (task_of words.now) }

    // With every status: what is owed for the words, the files and the stream was put, all of it, or for
    // WriteFault a front of it, or for NoMemory first pieces of it and a word on the want of memory.
    ensures answered { IsAnswered (task_of words.now) (F.files shelf.old) (Rose (F.faults shelf.old) (F.faults shelf.new)) result (O.taken out.old) (O.taken out.new) }

    // Words of another form are refused, and no others.
    ensures refused { task_of words.now ≡ None → IsOr Status.Usage result }
    ensures usage { result ≡ Status.Usage → task_of words.now ≡ None }

    // A file that is too long is refused, and no other.
    ensures too_long { IfSome (F.files shelf.old) (λ held. HasLong held (needs_of (task_of words.now)) → (Rose (F.faults shelf.old) (F.faults shelf.new) → ⊥) → IsOr Status.TooLong result) }
    ensures too_long_only { IfSome (F.files shelf.old) (λ held. result ≡ Status.TooLong → HasLong held (needs_of (task_of words.now))) }

    // Faults of the shelf and the sink have their cause outside.
    ensures read_fault { result ≡ Status.ReadFault → Rose (F.faults shelf.old) (F.faults shelf.new) }
    ensures write_fault { result ≡ Status.WriteFault → Rose (O.faults out.old) (O.faults out.new) }

    // A refusal puts its own line and nothing else.
    ensures refusal { RefusalPut (task_of words.now) result (O.taken out.old) (O.taken out.new) }
    ensures never { IsLater result → ⊥ }

    // Files within the limit, a shelf and a sink without a fault: the command is done, or memory ran out.
    ensures complete { IfSome (F.files shelf.old) (λ held. (task_of words.now ≢ None) → AreWithin held (needs_of (task_of words.now)) → (Rose (F.faults shelf.old) (F.faults shelf.new) → ⊥) → (Rose (O.faults out.old) (O.faults out.new) → ⊥) → Ends (task_of words.now) result ⊎ (result ≡ Status.NoMemory)) }

    // No files are asked for but those that the words name, in their order and each once at most.
    ensures asked { GrowsByFront (F.asked shelf.old) (names_of (task_of words.now)) (F.asked shelf.new) }
{
    one_document();
    written_is_read();
    written_is_writable();
    respond(alloc, words, shelf, out)
}
