// What is done at a fragment.
ghost use Rattle.std.specs.Prelude.{◌≡◌, ◌≤◌, ◌*◌, true, Some, IsErrOf};
ghost use Rattle.exi_names.specs.Events.{Rose};
ghost use Rattle.exi_processing.specs.Reading.{IsReached};
ghost use Rattle.exi_processing.specs.Splices.{fits};
ghost use Rattle.exi_stitch.specs.Meetings.{Enters, Meets, Shows, StillReached, job_in};
ghost use Rattle.exi_stitch.specs.Promises.{posting_of};
ghost use Rattle.exi_stitch.specs.Stitches.{AskedOnce, IsOutcomeAt};
ghost use Rattle.exi_tape.specs.Lists.{events_of};

use exi_names::{EventOut, PushStop};
use exi_processing::{End, ReadStop, Spliced};
use exi_reader::Reader;
use exi_tables::Tables;
use exi_worker::{Desk, Posting};
use std::alloc::Global;

/// Asks the desk for the fragment that begins at this byte, at which the reader stands. A posting that may be used is taken
/// in place of the fragment; else the reader goes into it. `None` where reading goes on, and the end where it has ended.
pub(crate) fn meet<T: Tables + Drop, D: Desk, E: EventOut>(
    alloc: Global,
    reader: &mut Reader<'_, T>,
    byte: u64,
    desk: &mut D,
    out: &mut E,
    used: &mut Vec<u64>,
) -> Result<Option<End>, ReadStop>
    requires reached { IsReached reader.old }
    requires at_fragment { reader.old.waits ≡ true }
    requires place { reader.old.config.place ≡ 8 * byte }
    requires setting { (D.job desk.old).setting ≡ reader.old.setting }
    requires bytes { (D.job desk.old).bytes ≡ reader.old.bytes }
    requires sound { D.sound desk.old }
    ensures meets { Meets E.took E.broke (λ given. AskedOnce posting_of D.arrives D.returns desk.old byte given desk.new) result byte reader.old reader.new used.old.items used.new.items out.old out.new }
    ensures reached { StillReached result reader.new }
    ensures setting { reader.new.setting ≡ reader.old.setting }
    ensures bytes { reader.new.bytes ≡ reader.old.bytes }
    ensures job { D.job desk.new ≡ D.job desk.old }
    ensures sound { D.sound desk.new }
    ensures desk { D.same desk.old desk.new }
    ensures same { E.same out.old out.new }
    ensures later { E.stops out.old ≤ E.stops out.new }
    ensures stopped { IsErrOf result ReadStop.Stopped → Rose (E.stops out.old) (E.stops out.new) }
{
    let Some(posting) = desk.arrive(byte) else {
        return go_in(reader);
    };
    if !reader.fits(&posting.end) {
        desk.back(posting);
        return go_in(reader);
    }
    let joined = join_posting(alloc, reader, byte, &posting, out, used);
    desk.back(posting);
    joined
}

/// Goes into the fragment, which is then read here.
fn go_in<T: Tables + Drop>(reader: &mut Reader<'_, T>) -> Result<Option<End>, ReadStop>
    requires reached { IsReached reader.old }
    requires at_fragment { reader.old.waits ≡ true }
    ensures enters { Enters result reader.old reader.new }
    ensures setting { reader.new.setting ≡ reader.old.setting }
    ensures bytes { reader.new.bytes ≡ reader.old.bytes }
{
    match reader.enter() {
        Ok(()) => Ok(None),
        Err(_) => Err(ReadStop::Memory),
    }
}

/// Takes a posting that fits in place of the fragment: its events are shown, and its byte is listed.
fn join_posting<T: Tables + Drop, E: EventOut>(
    alloc: Global,
    reader: &mut Reader<'_, T>,
    byte: u64,
    posting: &Posting,
    out: &mut E,
    used: &mut Vec<u64>,
) -> Result<Option<End>, ReadStop>
    requires reached { IsReached reader.old }
    requires at_fragment { reader.old.waits ≡ true }
    requires place { reader.old.config.place ≡ 8 * byte }
    requires outcome { IsOutcomeAt (job_in reader.old) byte (posting_of posting.now) }
    requires fitting { fits reader.old.config posting.now.end ≡ true }
    ensures meets { Meets E.took E.broke (λ given. given ≡ Some (posting_of posting.now)) result byte reader.old reader.new used.old.items used.new.items out.old out.new }
    ensures reached { StillReached result reader.new }
    ensures setting { reader.new.setting ≡ reader.old.setting }
    ensures bytes { reader.new.bytes ≡ reader.old.bytes }
    ensures same { E.same out.old out.new }
    ensures later { E.stops out.old ≤ E.stops out.new }
    ensures stopped { IsErrOf result ReadStop.Stopped → Rose (E.stops out.old) (E.stops out.new) }
{
    let Ok(()) = used.push(byte) else {
        return Err(ReadStop::Memory);
    };
    match reader.splice(&posting.end) {
        Spliced::On => match show(alloc, posting, out) {
            Ok(()) => Ok(None),
            Err(stop) => Err(stop),
        },
        Spliced::Ended(end) => match show(alloc, posting, out) {
            Ok(()) => Ok(Some(end)),
            Err(stop) => Err(stop),
        },
        Spliced::WrongRoot(end) => Ok(Some(end)),
    }
}

/// Shows the events of a posting, in order.
fn show<E: EventOut>(alloc: Global, posting: &Posting, out: &mut E) -> Result<(), ReadStop>
    ensures shows { Shows E.took E.broke result (events_of posting.now.tape) out.old out.new }
    ensures same { E.same out.old out.new }
    ensures later { E.stops out.old ≤ E.stops out.new }
    ensures stopped { IsErrOf result ReadStop.Stopped → Rose (E.stops out.old) (E.stops out.new) }
{
    match posting.tape.play(alloc, out) {
        Ok(()) => Ok(()),
        Err(PushStop::Memory) => Err(ReadStop::Memory),
        Err(PushStop::Stopped) => Err(ReadStop::Stopped),
    }
}
