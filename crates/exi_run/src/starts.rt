ghost use Rattle.std.specs.Prelude.{◌≡◌, ◌≤◌, IsErrOf};
ghost use Rattle.std.proofs.Common.{refl, ◌∙◌};
ghost use Rattle.exi_names.specs.Events.{Rose};
ghost use Rattle.exi_names.specs.Shown.{shows};
ghost use Rattle.exi_index.specs.Hints.{line_of};
ghost use Rattle.exi_run.specs.Forms.{start_of};
ghost use Rattle.exi_run.specs.Printing.{Prints, BreaksOff, PrintsEvent, PutsLine, PutsText, prints_none, prints_more};
ghost use Rattle.exi_run.specs.declared.form.Form.TheVariants as form;

use exi_index::push_hint;
use exi_names::{EventOut, EventRef, PushStop};
use exi_ports::{Sink, SinkStop};

/// Prints the byte at which each self-contained element begins as a line, in one put. It stops where the sink fails.
#[derive(Drop)]
pub(crate) struct StartPrinter<'a, O: Sink> {
    /// Where the lines go.
    pub out: &'a mut O,
    /// Room for a line, kept from one event to the next.
    pub line: &'a mut String,
    /// How often it stopped.
    pub stops: u64,
}

impl<'a, O: Sink> StartPrinter<'a, O> {
    /// The line of an event, where it has one, goes to the sink.
    fn print(&mut self, event: &EventRef<'_>) -> Result<(), PushStop>
        ensures printed { PrintsEvent form.Starts (shows event.now) result (O.taken self.old.out.now) (O.faults self.old.out.now) (O.taken self.new.out.now) (O.faults self.new.out.now) }
        ensures same { self.new.out.ghost_name ≡ self.old.out.ghost_name }
        ensures later { self.old.stops ≤ self.new.stops }
        ensures stopped { IsErrOf result PushStop.Stopped → Rose self.old.stops self.new.stops }
    {
        match put_start(self.line, self.out, event) {
            Ok(()) => Ok(()),
            Err(SinkStop::Memory) => Err(PushStop::Memory),
            Err(SinkStop::Failed) => {
                self.stops = self.stops.saturating_add(1);
                Err(PushStop::Stopped)
            }
        }
    }
}

impl<'a, O: Sink> EventOut for StartPrinter<'a, O> {
    ghost took = { λ a es b. Prints form.Starts (O.taken a.out.now) (O.faults a.out.now) es (O.taken b.out.now) (O.faults b.out.now) };

    ghost broke = { λ a e b. BreaksOff form.Starts (O.taken a.out.now) (O.faults a.out.now) e (O.taken b.out.now) (O.faults b.out.now) };

    ghost same = { λ a b. b.out.ghost_name ≡ a.out.ghost_name };

    ghost stops = { λ a. a.stops };

    fn see(&mut self, event: &EventRef<'_>) -> Result<(), PushStop> {
        self.print(event)
    }

    ghost same_now = { λ s. refl };

    ghost same_then = { λ a b c p q. q ∙ p };

    ghost none = { λ s. prints_none form.Starts (O.taken s.out.now) (O.faults s.out.now) };

    ghost more = { λ a b c es fs. prints_more form.Starts (O.taken a.out.now) (O.taken b.out.now) (O.taken c.out.now) (O.faults a.out.now) (O.faults b.out.now) (O.faults c.out.now) es fs };
}

/// The line of a hint, in one put.
fn put_hint<O: Sink>(line: &mut String, out: &mut O, at: u64) -> Result<(), SinkStop>
    ensures { PutsText (line_of at) result (O.taken out.old) (O.faults out.old) (O.taken out.new) (O.faults out.new) }
{
    line.clear();
    let Ok(()) = push_hint(line, at) else {
        return Err(SinkStop::Memory);
    };
    out.put(line.as_bytes())
}

/// The byte at which a self-contained element begins, where the event is one.
fn start_of(event: &EventRef<'_>) -> Option<u64>
    ensures { result ≡ start_of (shows event.now) }
{
    match event {
        EventRef::Sc { at } => Some(*at),
        EventRef::Sd
        | EventRef::Ed
        | EventRef::Se(_)
        | EventRef::Ee
        | EventRef::At(_, _)
        | EventRef::Ch(_)
        | EventRef::Ns { .. }
        | EventRef::Cm(_)
        | EventRef::Pi { .. }
        | EventRef::Dt { .. }
        | EventRef::Er(_) => None,
    }
}

/// The line of an event that begins a self-contained element, in one put; nothing for another.
fn put_start<O: Sink>(line: &mut String, out: &mut O, event: &EventRef<'_>) -> Result<(), SinkStop>
    ensures { PutsLine form.Starts (shows event.now) result (O.taken out.old) (O.faults out.old) (O.taken out.new) (O.faults out.new) }
{
    match start_of(event) {
        Some(at) => put_hint(line, out, at),
        None => Ok(()),
    }
}
