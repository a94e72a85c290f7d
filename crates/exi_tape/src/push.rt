//! How events get on a tape, and how its pages go back.
ghost use Rattle.std.specs.Prelude.{◌≡◌, ℕ, ◌+◌, ◌*◌, ◌^◌, ◌<◌, ◌≤◌, ◌++◌, ◌∷◌, [], length, OnErr, OnOk};
ghost use Rattle.exi_names.specs.Shown.{shows};
ghost use Rattle.exi_pool.specs.Passes.{IsOf, Rose, dry_of, view_of};
ghost use Rattle.exi_pool.specs.Views.{SameStart, gives, takes};
ghost use Rattle.exi_tape.specs.Lists.{events_of, pages_of};
ghost use Rattle.exi_tape.specs.Rolls.{times};
ghost use Rattle.exi_tape.specs.Sound.{Sound};
ghost use Rattle.exi_tape.specs.Spelling.{spelled};
ghost use Rattle.exi_tape.specs.Tapes.{weight};

use crate::roll::{Full, Roll};
use crate::sizes::event_size;
use crate::tape::Tape;
use crate::write::put_event;
use exi_names::EventRef;
use exi_pool::{Pool, PoolPass};
use std::sync::Wait;

impl Tape {
    /// No events, on no page.
    pub fn new() -> Tape
        ensures events { events_of result ≡ [] }
        ensures pages { pages_of result ≡ [] }
    {
        Tape { roll: Roll::new() }
    }

    /// Puts an event at the end of the list. Takes the pages that it needs and no other: 4,096 times their number is at
    /// most 4,096 more than the event's weight, which is 64, and 64 for each value and list item of the event, 8 for
    /// each text, 4 for each character and 1 for each octet. The event has to be spelled by less than 2^40 bytes.
    ///
    /// # Errors
    ///
    /// `Full` where the pool has no page left, which `pass` then counted; the list is unchanged. Pages that were taken
    /// in this call stay with the tape.
    pub fn push<R: Wait>(
        &mut self,
        rt: &R,
        pool: &Pool,
        pass: &mut PoolPass,
        event: &EventRef<'_>,
    ) -> Result<(), Full>
        requires of { IsOf pool.now pass.old }
        requires few { length (spelled (shows event.now)) < 2 ^ 40 }
        ensures of { IsOf pool.now pass.new }
        ensures ok { OnOk result (events_of self.new ≡ events_of self.old ++ shows event.now ∷ []) }
        ensures err { OnErr result (events_of self.new ≡ events_of self.old) }
        ensures full { OnErr result (Rose (dry_of pass.old) (dry_of pass.new)) }
        ensures later { dry_of pass.old ≤ dry_of pass.new }
        ensures pages { (n : ℕ) → times n (pages_of self.new) + takes n (view_of pass.old) ≡ times n (pages_of self.old) + takes n (view_of pass.new) }
        ensures gives { (view_of pass.new).gives ≡ (view_of pass.old).gives }
        ensures start { SameStart (view_of pass.old) (view_of pass.new) }
        ensures most { 4096 * length (view_of pass.new).takes ≤ 4096 * (length (view_of pass.old).takes + 1) + weight (shows event.now) }
    {
        self.lay(rt, pool, pass, event, event_size(event))
    }

    /// The same, of an event whose size is known.
    pub(crate) fn lay<R: Wait>(
        &mut self,
        rt: &R,
        pool: &Pool,
        pass: &mut PoolPass,
        event: &EventRef<'_>,
        size: u64,
    ) -> Result<(), Full>
        requires of { IsOf pool.now pass.old }
        requires size { size ≡ length (spelled (shows event.now)) }
        requires few { size < 2 ^ 40 }
        requires sound { Sound (shows event.now) }
        ensures of { IsOf pool.now pass.new }
        ensures ok { OnOk result (events_of self.new ≡ events_of self.old ++ shows event.now ∷ []) }
        ensures err { OnErr result (events_of self.new ≡ events_of self.old) }
        ensures full { OnErr result (Rose (dry_of pass.old) (dry_of pass.new)) }
        ensures later { dry_of pass.old ≤ dry_of pass.new }
        ensures pages { (n : ℕ) → times n (pages_of self.new) + takes n (view_of pass.old) ≡ times n (pages_of self.old) + takes n (view_of pass.new) }
        ensures gives { (view_of pass.new).gives ≡ (view_of pass.old).gives }
        ensures start { SameStart (view_of pass.old) (view_of pass.new) }
        ensures most { 4096 * length (view_of pass.new).takes ≤ 4096 * (length (view_of pass.old).takes + 1) + weight (shows event.now) }
    {
        self.roll.reserve(rt, pool, pass, size)?;
        put_event(&mut self.roll, event);
        Ok(())
    }

    /// Gives each of its pages to the pool, with which the pass was made.
    pub fn give_back<R: Wait>(self, rt: &R, pool: &Pool, pass: &mut PoolPass)
        requires of { IsOf pool.now pass.old }
        ensures of { IsOf pool.now pass.new }
        ensures gives { (n : ℕ) → gives n (view_of pass.new) ≡ gives n (view_of pass.old) + times n (pages_of self) }
        ensures takes { (view_of pass.new).takes ≡ (view_of pass.old).takes }
        ensures start { SameStart (view_of pass.old) (view_of pass.new) }
        ensures dry { dry_of pass.new ≡ dry_of pass.old }
    {
        self.roll.give_back(rt, pool, pass);
    }
}
