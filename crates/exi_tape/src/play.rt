//! How a tape is played.
ghost use Rattle.std.specs.Prelude.{◌≡◌, ◌≤◌, IsErrOf, OnOk};
ghost use Rattle.exi_names.specs.Events.{Rose};
ghost use Rattle.exi_tape.specs.Lists.{events_of};
ghost use Rattle.exi_tape.specs.Playing.{BreaksOff, PlaysSome};

use crate::room::Room;
use crate::tape::Tape;
use crate::walk::Unread;
use exi_names::{EventOut, PushStop};
use std::alloc::Global;

impl Tape {
    /// Shows each event to `out`, in order. What an event holds is made in room that serves the next one too: a short
    /// text takes no memory.
    ///
    /// # Errors
    ///
    /// `PushStop::Memory` where memory is refused; `out` then took the first of the events, some or none.
    /// `PushStop::Stopped` where `out` stopped; it then took the events before one at which it stopped.
    pub fn play<E: EventOut>(&self, alloc: Global, out: &mut E) -> Result<(), PushStop>
        ensures ok { OnOk result (E.took out.old (events_of self.now) out.new) }
        ensures memory { IsErrOf result PushStop.Memory → PlaysSome E.took (events_of self.now) out.old out.new }
        ensures broke { IsErrOf result PushStop.Stopped → BreaksOff E.took E.broke (events_of self.now) out.old out.new }
        ensures same { E.same out.old out.new }
        ensures later { E.stops out.old ≤ E.stops out.new }
        ensures stopped { IsErrOf result PushStop.Stopped → Rose (E.stops out.old) (E.stops out.new) }
    {
        let Ok(mut walk) = self.roll.walk(alloc) else {
            return Err(PushStop::Memory);
        };
        let mut room = Room::new(alloc);
        while !walk.is_over() {
            match walk.event(alloc, &mut room) {
                Ok(shape) => out.see(&room.event(shape))?,
                Err(Unread::Memory) => return Err(PushStop::Memory),
                Err(Unread::Broken) => unreachable!(),
            }
        }
        Ok(())
    }
}
