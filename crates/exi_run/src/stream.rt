ghost use Rattle.std.specs.Prelude.{◌≡◌, ◌≤◌, ◌∷◌, [], Some, None, ℕ, false, length, option_copied, IfOk, IsErrOf};
ghost use Rattle.exi_gram.specs.Schemas.{IsSchema};
ghost use Rattle.exi_gram.specs.Switches.{conflicts};
ghost use Rattle.exi_names.specs.Events.{Rose};
ghost use Rattle.exi_processing.specs.Reading.{IsJob, Sequences, job_of};
ghost use Rattle.exi_meter.specs.Metering.{stream_bounds};
ghost use Rattle.exi_processing.specs.declared.start.Start.TheVariants as start;
ghost use Rattle.exi_run.specs.Answers.{Did, DidEvents, DidLast, GrowsByFront, Informs, Served};
ghost use Rattle.exi_run.specs.Dues.{Due, OwedOf, OwedOfBoth, OwedOfStream, most_bytes};
ghost use Rattle.exi_run.specs.Endings.{last_line};
ghost use Rattle.exi_run.specs.Forms.{last_pieces};
ghost use Rattle.exi_run.specs.Printing.{PrintsBody};
ghost use Rattle.exi_run.specs.Statuses.{IsTold};
ghost use Rattle.exi_run.specs.Tasks.{names_of, telling_task, terms_told};
ghost use Rattle.exi_run.specs.declared.form.Form.TheVariants as form;

use crate::command::Telling;
use crate::ending::Ending;
use crate::files::fetch_file;
use crate::form::Form;
use crate::halt::{Halt, Refusal, Role};
use crate::laws::one_whole;
use crate::printer::TextPrinter;
use crate::starts::StartPrinter;
use crate::status::Status;
use exi_bits::Stop;
use exi_gram::{Options, Schema};
use exi_meter::Limits;
use exi_names::{EventOut, Octets, Txt};
use exi_opening::stream_header;
use exi_ports::{Shelf, Sink};
use exi_processing::{End, Job, ReadStop, Start};
use exi_reader::read_from;
use exi_steps::Steps;
use exi_tables::PlaceTables;
use std::alloc::Global;
use std::marker::Brand;
use std::sync::ledger::{Blank, Ledger};
use xsd_file::laws::one_document;
use xsd_file::{SchemaHalt, book_by, read_document};

/// The events of a body, to what takes them. The steps that it counts are not looked at.
fn read_on<L: Ledger, E: EventOut>(
    alloc: Global,
    job: &Job<'_>,
    out: &mut E,
    blank: Blank,
) -> Result<End, ReadStop>
    requires name { blank.name ≡ L.name }
    requires parts { (blank.parts ≡ L.parts) × (blank.parts ≡ 1) }
    requires job { IsJob (job_of job.now) }
    ensures read { (before after : ℕ) × Sequences E.took E.broke result (job_of job.now) start.Body stream_bounds out.old out.new before after }
    ensures same { E.same out.old out.new }
{
    let mut steps = Steps::<L>::of(blank);
    let limits = Limits::of_stream();
    read_from::<PlaceTables, E, L>(alloc, job, Start::Body, limits, out, &mut steps)
}

/// The events of a body, one line each.
fn print_text<O: Sink>(alloc: Global, job: &Job<'_>, out: &mut O) -> Result<End, ReadStop>
    requires { IsJob (job_of job.now) }
    ensures { PrintsBody form.Text result (job_of job.now) (O.taken out.old) (O.faults out.old) (O.taken out.new) (O.faults out.new) }
{
    let mut line = String::new(alloc);
    let mut printer = TextPrinter {
        out,
        line: &mut line,
        stops: 0,
    };
    read_on::<Brand, TextPrinter<'_, O>>(alloc, job, &mut printer, Blank::new(1))
}

/// Where the self-contained elements of a body begin, one line each.
fn print_starts<O: Sink>(alloc: Global, job: &Job<'_>, out: &mut O) -> Result<End, ReadStop>
    requires { IsJob (job_of job.now) }
    ensures { PrintsBody form.Starts result (job_of job.now) (O.taken out.old) (O.faults out.old) (O.taken out.new) (O.faults out.new) }
{
    let mut line = String::new(alloc);
    let mut printer = StartPrinter {
        out,
        line: &mut line,
        stops: 0,
    };
    read_on::<Brand, StartPrinter<'_, O>>(alloc, job, &mut printer, Blank::new(1))
}

/// A body in a form.
fn print_body<O: Sink>(
    alloc: Global,
    form: Form,
    job: &Job<'_>,
    out: &mut O,
) -> Result<End, ReadStop>
    requires { IsJob (job_of job.now) }
    ensures { PrintsBody form result (job_of job.now) (O.taken out.old) (O.faults out.old) (O.taken out.new) (O.faults out.new) }
{
    match form {
        Form::Text => print_text(alloc, job, out),
        Form::Starts => print_starts(alloc, job, out),
    }
}

/// The events of a stream in a form, by the options of the words and by a schema that is known, if there is one, which the stream may
/// name by this name.
fn print_events<O: Sink>(
    alloc: Global,
    form: Form,
    words: &Options,
    schema: Option<Schema>,
    name: Option<&str>,
    bytes: &[u8],
    out: &mut O,
) -> Result<Ending, Halt>
    requires few { length bytes.now ≤ most_bytes }
    requires free { conflicts words.now ≡ false }
    ensures printed { DidEvents form (record { options = words.now; schema = schema; name = option_copied name.entry }) bytes.now result (O.taken out.old) (O.taken out.new) }
    ensures later { O.faults out.old ≤ O.faults out.new }
    ensures write { IsErrOf result Halt.Write → Rose (O.faults out.old) (O.faults out.new) }
{
    one_whole();
    let header = match stream_header(alloc, bytes, words, name) {
        Ok(header) => header,
        Err(Stop::Fault(fault)) => return Ok(Ending::Fault(fault)),
        Err(Stop::Memory) => return Err(Halt::Memory),
    };
    let body = header.body;
    let book = book_by(alloc, schema, header.options)?;
    let job = Job {
        book: &book,
        bytes,
        body,
        limits: Limits::of_stream(),
    };
    let end = print_body(alloc, form, &job, out)?;
    Ok(Ending::of(end))
}

/// The line of the end.
fn put_line<O: Sink>(alloc: Global, end: Ending, out: &mut O) -> Result<(), Halt>
    ensures put { DidLast (last_line end ∷ []) result (O.taken out.old) (O.taken out.new) }
    ensures later { O.faults out.old ≤ O.faults out.new }
    ensures write { IsErrOf result Halt.Write → Rose (O.faults out.old) (O.faults out.new) }
{
    let line = end.line(alloc)?;
    out.put(&line)?;
    Ok(())
}

/// The last line of a form, where it has one.
fn put_last<O: Sink>(alloc: Global, form: Form, end: Ending, out: &mut O) -> Result<(), Halt>
    ensures put { DidLast (last_pieces form end) result (O.taken out.old) (O.taken out.new) }
    ensures later { O.faults out.old ≤ O.faults out.new }
    ensures write { IsErrOf result Halt.Write → Rose (O.faults out.old) (O.faults out.new) }
{
    match (form, end) {
        (Form::Text, _) | (Form::Starts, Ending::Fault(_)) => put_line(alloc, end, out),
        (Form::Starts, Ending::Done(_)) => Ok(()),
    }
}

/// A stream in a form: its events, and its end.
fn print_stream<O: Sink>(
    alloc: Global,
    form: Form,
    words: &Options,
    schema: Option<Schema>,
    name: Option<&str>,
    bytes: &[u8],
    out: &mut O,
) -> Result<Status, Halt>
    requires few { length bytes.now ≤ most_bytes }
    requires free { conflicts words.now ≡ false }
    ensures printed { (due : Due) × OwedOf form (record { options = words.now; schema = schema; name = option_copied name.entry }) bytes.now due × Did due result (O.taken out.old) (O.taken out.new) }
    ensures later { O.faults out.old ≤ O.faults out.new }
    ensures write { IsErrOf result Halt.Write → Rose (O.faults out.old) (O.faults out.new) }
    ensures told { IfOk result IsTold }
    ensures failed { IsErrOf result (Halt.Refused Refusal.ReadFailed) → ⊥ }
{
    let end = print_events(alloc, form, words, schema, name, bytes, out)?;
    put_last(alloc, form, end, out)?;
    Ok(end.status())
}

/// The schema that a document makes known.
pub(crate) fn schema_in(alloc: Global, document: Octets) -> Result<Schema, Halt>
    requires few { length document ≤ most_bytes }
    ensures informs { Informs document result }
    ensures schema { IfOk result (λ s. IsSchema s) }
{
    match read_document(alloc, document.as_slice()) {
        Ok(known) => Ok(known.schema),
        Err(SchemaHalt::Refused(why)) => Err(Halt::Refused(Refusal::Schema(why))),
        Err(SchemaHalt::Memory) => Err(Halt::Memory),
    }
}

/// A stream in a form, by the schema that a document makes known.
fn print_informed<O: Sink>(
    alloc: Global,
    telling: &Telling<'_>,
    document: Octets,
    bytes: &[u8],
    out: &mut O,
) -> Result<Status, Halt>
    requires document { length document ≤ most_bytes }
    requires few { length bytes.now ≤ most_bytes }
    requires free { conflicts telling.now.options ≡ false }
    ensures printed { (due : Due) × OwedOfBoth (OwedOfStream telling.now.form (terms_told telling.now)) document bytes.now due × Did due result (O.taken out.old) (O.taken out.new) }
    ensures later { O.faults out.old ≤ O.faults out.new }
    ensures write { IsErrOf result Halt.Write → Rose (O.faults out.old) (O.faults out.new) }
    ensures failed { IsErrOf result (Halt.Refused Refusal.ReadFailed) → ⊥ }
    ensures told { IfOk result IsTold }
{
    one_whole();
    one_document();
    let schema = schema_in(alloc, document)?;
    print_stream(
        alloc,
        telling.form,
        &telling.options,
        Some(schema),
        telling.name,
        bytes,
        out,
    )
}

/// The stream of a file without a schema's document.
fn tell_plain<F: Shelf, O: Sink>(
    alloc: Global,
    telling: &Telling<'_>,
    shelf: &mut F,
    out: &mut O,
) -> Result<Status, Halt>
    requires free { conflicts telling.now.options ≡ false }
    requires plain { option_copied telling.now.document ≡ None }
    ensures served { Served (Some (telling_task telling.now)) (F.files shelf.old) (Rose (F.faults shelf.old) (F.faults shelf.new)) result (O.taken out.old) (O.taken out.new) }
    ensures asked { GrowsByFront (F.asked shelf.old) (names_of (Some (telling_task telling.now))) (F.asked shelf.new) }
    ensures later { O.faults out.old ≤ O.faults out.new }
    ensures write { IsErrOf result Halt.Write → Rose (O.faults out.old) (O.faults out.new) }
    ensures failed { IsErrOf result (Halt.Refused Refusal.ReadFailed) → Rose (F.faults shelf.old) (F.faults shelf.new) }
    ensures told { IfOk result IsTold }
{
    one_whole();
    let input = fetch_file(alloc, shelf, telling.file, Role::Input)?;
    print_stream(
        alloc,
        telling.form,
        &telling.options,
        None,
        None,
        input.as_slice(),
        out,
    )
}

/// The stream of a file with a schema's document in another, which is fetched first.
fn tell_informed<F: Shelf, O: Sink>(
    alloc: Global,
    telling: &Telling<'_>,
    document: &str,
    shelf: &mut F,
    out: &mut O,
) -> Result<Status, Halt>
    requires free { conflicts telling.now.options ≡ false }
    requires informed { option_copied telling.now.document ≡ Some document.now }
    ensures served { Served (Some (telling_task telling.now)) (F.files shelf.old) (Rose (F.faults shelf.old) (F.faults shelf.new)) result (O.taken out.old) (O.taken out.new) }
    ensures asked { GrowsByFront (F.asked shelf.old) (names_of (Some (telling_task telling.now))) (F.asked shelf.new) }
    ensures later { O.faults out.old ≤ O.faults out.new }
    ensures write { IsErrOf result Halt.Write → Rose (O.faults out.old) (O.faults out.new) }
    ensures failed { IsErrOf result (Halt.Refused Refusal.ReadFailed) → Rose (F.faults shelf.old) (F.faults shelf.new) }
    ensures told { IfOk result IsTold }
{
    one_whole();
    one_document();
    let name = Txt::of(alloc, document)?;
    let document = fetch_file(alloc, shelf, &name, Role::Schema)?;
    let input = fetch_file(alloc, shelf, telling.file, Role::Input)?;
    print_informed(alloc, telling, document, input.as_slice(), out)
}

/// The stream of a file, in the form that a command tells it.
pub(crate) fn tell_stream<F: Shelf, O: Sink>(
    alloc: Global,
    telling: &Telling<'_>,
    shelf: &mut F,
    out: &mut O,
) -> Result<Status, Halt>
    requires free { conflicts telling.now.options ≡ false }
    ensures served { Served (Some (telling_task telling.now)) (F.files shelf.old) (Rose (F.faults shelf.old) (F.faults shelf.new)) result (O.taken out.old) (O.taken out.new) }
    ensures asked { GrowsByFront (F.asked shelf.old) (names_of (Some (telling_task telling.now))) (F.asked shelf.new) }
    ensures later { O.faults out.old ≤ O.faults out.new }
    ensures write { IsErrOf result Halt.Write → Rose (O.faults out.old) (O.faults out.new) }
    ensures failed { IsErrOf result (Halt.Refused Refusal.ReadFailed) → Rose (F.faults shelf.old) (F.faults shelf.new) }
    ensures told { IfOk result IsTold }
{
    match telling.document {
        Some(document) => tell_informed(alloc, telling, document, shelf, out),
        None => tell_plain(alloc, telling, shelf, out),
    }
}
