ghost use Rattle.std.specs.Prelude.{◌≡◌};
ghost use Rattle.exi_names.specs.Seen.{seen};
ghost use Rattle.exi_processing.specs.Handing.{effected_elements, effected_outer, emptied_by, is_true, typing};
ghost use Rattle.exi_processing.specs.Stacks.{HaveForm};

use crate::changes::go_to;
use crate::elements::Elements;
use crate::frames::{Outer, State};
use crate::rule::Valuing;
use exi_names::Val;

/// The state behind an attribute that names a type: the innermost element goes on with the type's grammar. Where that
/// is not there, a built-in grammar leads on, and one of the schema stays where it is.
pub fn retype(
    elements: &mut Elements,
    outer: &mut Outer,
    valuing: Valuing,
    grammar: Option<u32>,
    to: u32,
)
    ensures elements { elements.new ≡ effected_elements (typing valuing grammar) to elements.old }
    ensures outer { outer.new ≡ effected_outer (typing valuing grammar) to elements.old outer.old }
{
    match grammar {
        Some(grammar) => elements.restate(State::Informed {
            grammar,
            state: 0,
            empty: false,
        }),
        None => match valuing {
            Valuing::Untyped => go_to(elements, outer, to),
            Valuing::Typed | Valuing::ByName => {}
        },
    }
}

/// Whether a value is true.
fn is_true(value: &Val) -> bool
    ensures { result ≡ is_true (seen value.now) }
{
    match value {
        Val::Bool { yes, .. } => *yes,
        Val::Text(_)
        | Val::Int(_)
        | Val::Dec { .. }
        | Val::Flo { .. }
        | Val::Mom(_)
        | Val::Bin { .. }
        | Val::Items(_)
        | Val::Name(_) => false,
    }
}

/// The innermost element goes on with the empty form of its grammar, where the value of `xsi:nil` is true.
pub fn empty_by(elements: &mut Elements, value: &Val)
    requires forms { HaveForm elements.old }
    ensures { elements.new ≡ emptied_by (seen value.now) elements.old }
{
    if is_true(value) {
        elements.empty();
    }
}
