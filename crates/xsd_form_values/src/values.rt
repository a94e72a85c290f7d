//! Whether a text has a value under a form.

ghost use Rattle.std.specs.Prelude.{◌≡◌, ◌<◌, IfOk, length};
ghost use Rattle.std.specs.Option.{is_some};
ghost use Rattle.exi_names.specs.Datatypes.{represented};
ghost use Rattle.exi_lexical.specs.Values.{value};
ghost use Rattle.xsd_form_values.specs.Innermost.{innermost};
ghost use Rattle.xsd_model.specs.Parts.{AreForms, representations};
ghost use Rattle.xsd_restrictions.specs.Restrictions.{form_at};

use crate::items::has_items;
use exi_names::{Datatype, Txt};
use std::alloc::{AllocError, Global};
use xsd_model::Form;

/// What the items are of the lists that lie in one another at a place, and the datatype there where it is no list.
fn innermost(forms: &[Form], place: u32) -> &Datatype
    requires forms { AreForms 0 forms.now }
    requires there { place < length forms.now }
    ensures { innermost (form_at (representations forms.now) place) ≡ innermost (represented result.now) }
{
    let mut at = place;
    loop {
        match &forms[at as usize] {
            Form::Item(datatype) => return datatype,
            Form::List(item) => at = *item,
        }
    }
}

/// Whether a text has a value as the form at a place has it: one of its datatype, or of a list at most [`exi_names::MOST_ITEMS`]
/// words, each with a value of the form of its items. The text is gone over a few times, never back.
///
/// # Errors
///
/// `AllocError` where memory is refused.
pub fn has_value(alloc: Global, forms: &[Form], place: u32, text: &Txt) -> Result<bool, AllocError>
    requires forms { AreForms 0 forms.now }
    requires there { place < length forms.now }
    ensures { IfOk result (λ has. has ≡ is_some (value (form_at (representations forms.now) place) text.now)) }
{
    match &forms[place as usize] {
        Form::Item(datatype) => exi_lexical::has_value(alloc, datatype, text),
        Form::List(item) => has_items(alloc, innermost(forms, *item), text),
    }
}
