ghost use Rattle.std.specs.Prelude.{◌≤◌, [], ◌∷◌, IsErrOf, OnOk};
ghost use Rattle.exi_names.specs.Events as event;
ghost use Rattle.exi_names.specs.Events.{Rose};
ghost use Rattle.exi_names.specs.Seen.{seen};
ghost use Rattle.exi_names.specs.Seen as value;
ghost use Rattle.exi_names.specs.Shown.{named};

use exi_names::{EventOut, EventRef, NameRef, PushStop, QName, Txt, Val, ValRef};

/// Hands on the start of an element. The event's room is made here, as in the calls below: what comes before makes none.
#[inline(always)]
pub fn see_start<E: EventOut>(name: NameRef<'_>, out: &mut E) -> Result<(), PushStop>
    ensures ok { OnOk result (E.took out.old (event.se (named name.entry) ∷ []) out.new) }
    ensures broke { IsErrOf result PushStop.Stopped → E.broke out.old (event.se (named name.entry)) out.new }
    ensures memory { IsErrOf result PushStop.Memory → E.took out.old [] out.new }
    ensures same { E.same out.old out.new }
    ensures later { E.stops out.old ≤ E.stops out.new }
    ensures stopped { IsErrOf result PushStop.Stopped → Rose (E.stops out.old) (E.stops out.new) }
{
    out.see(&EventRef::Se(name))
}

/// Hands on the end of an element.
#[inline(always)]
pub fn see_end<E: EventOut>(out: &mut E) -> Result<(), PushStop>
    ensures ok { OnOk result (E.took out.old (event.ee ∷ []) out.new) }
    ensures broke { IsErrOf result PushStop.Stopped → E.broke out.old event.ee out.new }
    ensures memory { IsErrOf result PushStop.Memory → E.took out.old [] out.new }
    ensures same { E.same out.old out.new }
    ensures later { E.stops out.old ≤ E.stops out.new }
    ensures stopped { IsErrOf result PushStop.Stopped → Rose (E.stops out.old) (E.stops out.new) }
{
    out.see(&EventRef::Ee)
}

/// Hands on characters that are a string.
#[inline(always)]
pub fn see_text<E: EventOut>(text: &Txt, out: &mut E) -> Result<(), PushStop>
    ensures ok { OnOk result (E.took out.old (event.ch (value.text text.now) ∷ []) out.new) }
    ensures broke { IsErrOf result PushStop.Stopped → E.broke out.old (event.ch (value.text text.now)) out.new }
    ensures memory { IsErrOf result PushStop.Memory → E.took out.old [] out.new }
    ensures same { E.same out.old out.new }
    ensures later { E.stops out.old ≤ E.stops out.new }
    ensures stopped { IsErrOf result PushStop.Stopped → Rose (E.stops out.old) (E.stops out.new) }
{
    out.see(&EventRef::Ch(ValRef::Text(text)))
}

/// Hands on an attribute that is a string.
#[inline(always)]
pub fn see_string<E: EventOut>(name: NameRef<'_>, text: &Txt, out: &mut E) -> Result<(), PushStop>
    ensures ok { OnOk result (E.took out.old (event.at (named name.entry) (value.text text.now) ∷ []) out.new) }
    ensures broke { IsErrOf result PushStop.Stopped → E.broke out.old (event.at (named name.entry) (value.text text.now)) out.new }
    ensures memory { IsErrOf result PushStop.Memory → E.took out.old [] out.new }
    ensures same { E.same out.old out.new }
    ensures later { E.stops out.old ≤ E.stops out.new }
    ensures stopped { IsErrOf result PushStop.Stopped → Rose (E.stops out.old) (E.stops out.new) }
{
    out.see(&EventRef::At(name, ValRef::Text(text)))
}

/// Hands on an attribute.
pub fn see_value<E: EventOut>(name: NameRef<'_>, value: &Val, out: &mut E) -> Result<(), PushStop>
    ensures ok { OnOk result (E.took out.old (event.at (named name.entry) (seen value.now) ∷ []) out.new) }
    ensures broke { IsErrOf result PushStop.Stopped → E.broke out.old (event.at (named name.entry) (seen value.now)) out.new }
    ensures memory { IsErrOf result PushStop.Memory → E.took out.old [] out.new }
    ensures same { E.same out.old out.new }
    ensures later { E.stops out.old ≤ E.stops out.new }
    ensures stopped { IsErrOf result PushStop.Stopped → Rose (E.stops out.old) (E.stops out.new) }
{
    out.see(&EventRef::At(name, ValRef::Any(value)))
}

/// Hands on an attribute whose value is a name.
pub fn see_name<E: EventOut>(name: NameRef<'_>, found: QName, out: &mut E) -> Result<(), PushStop>
    ensures ok { OnOk result (E.took out.old (event.at (named name.entry) (value.name found) ∷ []) out.new) }
    ensures broke { IsErrOf result PushStop.Stopped → E.broke out.old (event.at (named name.entry) (value.name found)) out.new }
    ensures memory { IsErrOf result PushStop.Memory → E.took out.old [] out.new }
    ensures same { E.same out.old out.new }
    ensures later { E.stops out.old ≤ E.stops out.new }
    ensures stopped { IsErrOf result PushStop.Stopped → Rose (E.stops out.old) (E.stops out.new) }
{
    see_value(name, &Val::Name(found), out)
}

/// Hands on characters.
pub fn see_characters<E: EventOut>(value: &Val, out: &mut E) -> Result<(), PushStop>
    ensures ok { OnOk result (E.took out.old (event.ch (seen value.now) ∷ []) out.new) }
    ensures broke { IsErrOf result PushStop.Stopped → E.broke out.old (event.ch (seen value.now)) out.new }
    ensures memory { IsErrOf result PushStop.Memory → E.took out.old [] out.new }
    ensures same { E.same out.old out.new }
    ensures later { E.stops out.old ≤ E.stops out.new }
    ensures stopped { IsErrOf result PushStop.Stopped → Rose (E.stops out.old) (E.stops out.new) }
{
    out.see(&EventRef::Ch(ValRef::Any(value)))
}
