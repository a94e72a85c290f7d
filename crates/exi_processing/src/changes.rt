ghost use Rattle.std.specs.Prelude.{◌≡◌, ◌<◌, ◌^◌, ◌∷◌, true, length, OnOk};
ghost use Rattle.exi_builtin.specs.Learning.{is_type, state_behind};
ghost use Rattle.exi_gram.specs.Switches.{prefixes, strict};
ghost use Rattle.exi_processing.specs.Changes.{enclosing, has_level, inner_state, innermost, is_alone, learned_in, left_level, moved_elements, moved_outer, outer_behind, room_in, with_inner};
ghost use Rattle.exi_processing.specs.Contents.{is_nil};
ghost use Rattle.exi_processing.specs.Handing.{CanLearn, alone_of, learned_by, telling_of};
ghost use Rattle.exi_processing.specs.Plans.{alone_in};

use crate::alone::Alone;
use crate::elements::Elements;
use crate::frames::{Element, Outer, State};
use crate::rule::Telling;
use bitflags::Flags;
use exi_builtin::{Learnable, Learned, Overlay, Room};
use exi_gram::{OptionFlags, Options};
use exi_meter::Meter;
use exi_names::NameId;
use std::alloc::AllocError;

/// Whether names keep their prefixes.
#[inline(always)]
pub fn keeps_prefixes(options: &Options) -> bool
    ensures { result ≡ prefixes options.now }
{
    options.flags.contains(OptionFlags::PREFIXES)
}

/// Whether what a schema does not describe is refused.
#[inline(always)]
pub fn is_strict(options: &Options) -> bool
    ensures { result ≡ strict options.now }
{
    options.flags.contains(OptionFlags::STRICT)
}

/// Whether a name is `xsi:type`, which the first string tables have at these places (EXI 1.0, appendix D).
#[inline(always)]
pub fn is_type(name: NameId) -> bool
    ensures { result ≡ is_type name }
{
    name.uri == 2 && name.local == 1
}

/// Whether a name is `xsi:nil`, which the first string tables have at these places (EXI 1.0, appendix D).
#[inline(always)]
pub fn is_nil(name: NameId) -> bool
    ensures { result ≡ is_nil name }
{
    name.uri == 2 && name.local == 0
}

/// Whether a fragment stands there for one element.
#[inline(always)]
fn is_alone(outer: Outer) -> bool
    ensures { result ≡ is_alone outer }
{
    match outer {
        Outer::AloneStart | Outer::AloneFirst | Outer::AloneOver => true,
        Outer::Book { .. } | Outer::FragmentStart | Outer::FragmentContent | Outer::Ended => false,
    }
}

/// The state outside of all elements that follows.
#[cold]
#[inline(never)]
fn moved_outer(outer: Outer, to: u32) -> Outer
    ensures { result ≡ moved_outer to outer }
{
    match outer {
        Outer::Book { grammar, .. } => Outer::Book { grammar, state: to },
        Outer::FragmentStart | Outer::FragmentContent => {
            if to == 0 {
                Outer::FragmentStart
            } else {
                Outer::FragmentContent
            }
        }
        Outer::AloneStart => Outer::AloneFirst,
        Outer::AloneFirst | Outer::AloneOver => Outer::AloneOver,
        Outer::Ended => Outer::Ended,
    }
}

/// Where reading is in a fragment that stands for one element, outside of that.
#[inline(always)]
pub fn alone_in(elements: &Elements, outer: Outer) -> Alone
    ensures { alone_of result ≡ alone_in elements.now outer }
{
    match elements.innermost() {
        Some(_) => Alone::Nowhere,
        None => Alone::of(outer),
    }
}

/// The name under which characters stand.
#[inline(always)]
pub fn innermost(elements: &Elements) -> NameId
    ensures { result ≡ innermost elements.now }
{
    match elements.innermost() {
        Some(element) => element.name,
        None => NameId { uri: 0, local: 0 },
    }
}

/// The state that learns.
#[inline(always)]
fn room_in(elements: &Elements, outer: Outer) -> Option<Room>
    ensures { result ≡ room_in elements.now outer }
{
    match elements.innermost() {
        Some(element) => match element.state {
            State::BuiltIn(room) => Some(room),
            State::Informed { .. } => None,
        },
        None => match outer {
            Outer::FragmentContent | Outer::AloneFirst | Outer::AloneOver => Some(Room::Fragment),
            Outer::Book { .. } | Outer::FragmentStart | Outer::AloneStart | Outer::Ended => None,
        },
    }
}

/// The state learns from a use.
#[inline(always)]
pub fn learn(
    overlay: &mut Overlay,
    elements: &Elements,
    outer: Outer,
    used: Learned,
) -> Result<(), AllocError>
    requires learns { CanLearn (room_in elements.now outer) overlay.old }
    ensures ok { OnOk result (overlay.new ≡ learned_in (room_in elements.now outer) used overlay.old) }
    ensures grammars { length overlay.new.grammars ≡ length overlay.old.grammars }
{
    if let Some(room) = room_in(elements, outer) {
        overlay.learn(room, used)?;
    }
    Ok(())
}

/// The state that follows.
#[inline(always)]
pub fn go_to(elements: &mut Elements, outer: &mut Outer, to: u32)
    ensures elements { elements.new ≡ moved_elements to elements.old }
    ensures outer { outer.new ≡ outer_behind to elements.old outer.old }
{
    if elements.innermost().is_none() {
        *outer = moved_outer(*outer, to);
    } else {
        elements.move_to(to);
    }
}

/// An element is opened.
///
/// # Errors
///
/// `AllocError` where memory is refused.
#[inline(always)]
pub fn open(
    overlay: &mut Overlay,
    elements: &mut Elements,
    name: NameId,
    inner: Option<u32>,
) -> Result<(), AllocError>
    requires few { length overlay.old.grammars < 2 ^ 31 }
    ensures elements { OnOk result (elements.new ≡ record { name = name; state = inner_state overlay.old name inner } ∷ elements.old) }
    ensures learned { OnOk result (overlay.new ≡ with_inner overlay.old name inner) }
{
    let state = match inner {
        None => State::BuiltIn(Room::StartTag(overlay.grammar(name)?)),
        Some(grammar) => State::Informed {
            grammar,
            state: 0,
            empty: false,
        },
    };
    elements.open(Element { name, state })
}

/// The innermost element is closed.
#[inline(always)]
pub fn close(elements: &mut Elements, outer: Outer, meter: &mut Meter)
    requires level { has_level elements.old outer ≡ true → 0 < meter.old.level }
    ensures elements { elements.new ≡ enclosing elements.old }
    ensures meter { meter.new ≡ left_level (has_level elements.old outer) meter.old }
{
    if has_level(elements, outer) {
        meter.leave();
    }
    elements.close();
}

/// Whether the innermost element has entered a level.
#[inline(always)]
fn has_level(elements: &Elements, outer: Outer) -> bool
    ensures { result ≡ has_level elements.now outer }
{
    match elements.len() {
        0 => false,
        1 => !is_alone(outer),
        _ => true,
    }
}

/// The state learns from the use of a name, where the name has bits of its own.
#[inline(always)]
pub fn learn_name(
    overlay: &mut Overlay,
    elements: &Elements,
    outer: Outer,
    telling: Telling,
    used: Learned,
) -> Result<(), AllocError>
    requires learns { CanLearn (room_in elements.now outer) overlay.old }
    ensures ok { OnOk result (overlay.new ≡ learned_by (telling_of telling) (room_in elements.now outer) used overlay.old) }
    ensures grammars { length overlay.new.grammars ≡ length overlay.old.grammars }
{
    match telling {
        Telling::Spelled | Telling::Under(_) => learn(overlay, elements, outer, used),
        Telling::Known(_) => Ok(()),
    }
}

/// The place of the state that a production of a built-in grammar leads to.
#[inline(always)]
pub fn state_behind(room: Room, production: Learnable) -> u32
    ensures { result ≡ state_behind room production }
{
    match (room, production) {
        (Room::StartTag(_), Learnable::Known(_, true) | Learnable::AtAny | Learnable::Ns) => 0,
        _ => 1,
    }
}
