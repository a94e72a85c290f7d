ghost use Rattle.std.specs.Prelude.{◌≡◌, ◌≤◌, IsErrOf};
ghost use Rattle.std.proofs.Common.{refl, ◌∙◌};
ghost use Rattle.exi_names.specs.Events.{Rose};
ghost use Rattle.exi_names.specs.Shown.{shows};
ghost use Rattle.exi_run.specs.Printing.{Prints, BreaksOff, PrintsEvent, PutsLine, prints_none, prints_more};
ghost use Rattle.exi_run.specs.declared.form.Form.TheVariants as form;

use exi_evtext::{lay_event, lay_short, push_event};
use exi_names::{EventOut, EventRef, PushStop};
use exi_ports::{Lay, Sink, SinkStop};

/// Prints each event as a line, in one put. It stops where the sink fails.
#[derive(Drop)]
pub(crate) struct TextPrinter<'a, O: Sink> {
    /// Where the lines go.
    pub out: &'a mut O,
    /// Room for a line, kept from one event to the next.
    pub line: &'a mut String,
    /// How often it stopped.
    pub stops: u64,
}

impl<'a, O: Sink> TextPrinter<'a, O> {
    /// The line of an event goes to the sink.
    #[inline(always)]
    fn print(&mut self, event: &EventRef<'_>) -> Result<(), PushStop>
        ensures printed { PrintsEvent form.Text (shows event.now) result (O.taken self.old.out.now) (O.faults self.old.out.now) (O.taken self.new.out.now) (O.faults self.new.out.now) }
        ensures same { self.new.out.ghost_name ≡ self.old.out.ghost_name }
        ensures later { self.old.stops ≤ self.new.stops }
        ensures stopped { IsErrOf result PushStop.Stopped → Rose self.old.stops self.new.stops }
    {
        if self.out.lay(&ShortLine { event }) {
            return Ok(());
        }
        // A copy is lent, so that the event itself needs no memory on the way of a short line.
        let copy = *event;
        self.print_any(&copy)
    }

    /// The same, apart: the way of a short line keeps nothing for it.
    #[inline(never)]
    fn print_any(&mut self, event: &EventRef<'_>) -> Result<(), PushStop>
        ensures printed { PrintsEvent form.Text (shows event.now) result (O.taken self.old.out.now) (O.faults self.old.out.now) (O.taken self.new.out.now) (O.faults self.new.out.now) }
        ensures same { self.new.out.ghost_name ≡ self.old.out.ghost_name }
        ensures later { self.old.stops ≤ self.new.stops }
        ensures stopped { IsErrOf result PushStop.Stopped → Rose self.old.stops self.new.stops }
    {
        match put_event(self.line, self.out, event) {
            Ok(()) => Ok(()),
            Err(SinkStop::Memory) => Err(PushStop::Memory),
            Err(SinkStop::Failed) => {
                self.stops = self.stops.saturating_add(1);
                Err(PushStop::Stopped)
            }
        }
    }
}

impl<'a, O: Sink> EventOut for TextPrinter<'a, O> {
    ghost took = { λ a es b. Prints form.Text (O.taken a.out.now) (O.faults a.out.now) es (O.taken b.out.now) (O.faults b.out.now) };

    ghost broke = { λ a e b. BreaksOff form.Text (O.taken a.out.now) (O.faults a.out.now) e (O.taken b.out.now) (O.faults b.out.now) };

    ghost same = { λ a b. b.out.ghost_name ≡ a.out.ghost_name };

    ghost stops = { λ a. a.stops };

    #[inline(always)]
    fn see(&mut self, event: &EventRef<'_>) -> Result<(), PushStop> {
        self.print(event)
    }

    ghost same_now = { λ s. refl };

    ghost same_then = { λ a b c p q. q ∙ p };

    ghost none = { λ s. prints_none form.Text (O.taken s.out.now) (O.faults s.out.now) };

    ghost more = { λ a b c es fs. prints_more form.Text (O.taken a.out.now) (O.taken b.out.now) (O.taken c.out.now) (O.faults a.out.now) (O.faults b.out.now) (O.faults c.out.now) es fs };
}

/// The line of an event, laid where it waits.
#[derive(Drop)]
struct Line<'a> {
    event: &'a EventRef<'a>,
}

impl<'a> Lay for Line<'a> {
    ghost use Rattle.exi_evtext.specs.Lines.{line_of};
    ghost use Rattle.exi_names.specs.Shown.{shows};

    ghost bytes = { λ l. line_of (shows l.event.now) };

    #[inline(always)]
    fn lay(&self, room: &mut [u8]) -> Option<usize> {
        lay_event(room, self.event)
    }
}

/// The short line of a frequent event, laid where it waits.
#[derive(Drop)]
struct ShortLine<'a> {
    event: &'a EventRef<'a>,
}

impl<'a> Lay for ShortLine<'a> {
    ghost use Rattle.exi_evtext.specs.Lines.{line_of};
    ghost use Rattle.exi_names.specs.Shown.{shows};

    ghost bytes = { λ l. line_of (shows l.event.now) };

    #[inline(always)]
    fn lay(&self, room: &mut [u8]) -> Option<usize> {
        lay_short(room, self.event)
    }
}

/// The line of an event, in one put.
#[inline(always)]
fn put_event<O: Sink>(line: &mut String, out: &mut O, event: &EventRef<'_>) -> Result<(), SinkStop>
    ensures { PutsLine form.Text (shows event.now) result (O.taken out.old) (O.faults out.old) (O.taken out.new) (O.faults out.new) }
{
    if out.lay(&Line { event }) {
        return Ok(());
    }
    put_long(line, out, event)
}

/// The same by way of a text that grows: any event's.
#[inline(never)]
fn put_long<O: Sink>(line: &mut String, out: &mut O, event: &EventRef<'_>) -> Result<(), SinkStop>
    ensures { PutsLine form.Text (shows event.now) result (O.taken out.old) (O.faults out.old) (O.taken out.new) (O.faults out.new) }
{
    line.clear();
    let Ok(()) = push_event(line, event) else {
        return Err(SinkStop::Memory);
    };
    out.put(line.as_bytes())
}
