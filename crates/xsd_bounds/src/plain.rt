//! How values are represented where they are not enumerated.

ghost use Rattle.std.specs.Prelude.{◌≡◌, Some, IfOk, option_map};
ghost use Rattle.exi_names.specs.Datatypes.{represented};
ghost use Rattle.xsd_bounds.specs.Bounds.{stands_at};
ghost use Rattle.xsd_bounds.specs.Plain.{family_form, integer_form, least_of, most_of, string_form, whole_form};

use crate::bound::Bound;
use exi_names::{Alphabet, Datatype};
use std::alloc::AllocError;
use xsd_builtins::Family;

/// Integers from a bound on.
fn whole_form(least: Option<Bound>) -> Datatype
    ensures { represented result ≡ whole_form (option_map stands_at least) }
{
    match least {
        Some(least) => {
            if least.is_natural() {
                Datatype::Unsigned
            } else {
                Datatype::Integer
            }
        }
        None => Datatype::Integer,
    }
}

/// The datatype of the integers between two bounds.
pub fn integer_form(least: Option<Bound>, most: Option<Bound>) -> Datatype
    ensures { represented result ≡ integer_form (option_map stands_at least) (option_map stands_at most) }
{
    if let (Some(first), Some(last)) = (least, most) {
        if let (Some(count), Some(first)) = (first.count(last), first.narrow()) {
            return Datatype::Small {
                least: first,
                count,
            };
        }
    }
    whole_form(least)
}

/// The datatype of strings that patterns keep to these characters.
fn string_form(patterned: bool, letters: &Option<Alphabet>) -> Result<Datatype, AllocError>
    ensures { IfOk result (λ d. represented d ≡ string_form patterned letters.now) }
{
    match letters {
        Some(letters) if patterned => Ok(Datatype::Chars(letters.copy()?)),
        _ => Ok(Datatype::Text),
    }
}

/// The datatype of the values of a family between these bounds. `patterned` says whether there is a pattern, and `letters`
/// are the characters that patterns leave, where they leave a set.
///
/// # Errors
///
/// `AllocError` where memory is refused.
pub fn family_form(
    family: Family,
    least: Option<Bound>,
    most: Option<Bound>,
    patterned: bool,
    letters: &Option<Alphabet>,
) -> Result<Datatype, AllocError>
    ensures { IfOk result (λ d. represented d ≡ family_form (option_map stands_at least) (option_map stands_at most) patterned letters.now family) }
{
    match family {
        Family::Integers { least: _, most: _ } => Ok(integer_form(least, most)),
        Family::Booleans => Ok(Datatype::Boolean { pattern: patterned }),
        Family::Base64 => Ok(Datatype::Binary { hex: false }),
        Family::Hex => Ok(Datatype::Binary { hex: true }),
        Family::Decimals => Ok(Datatype::Decimal),
        Family::Reals => Ok(Datatype::Float),
        Family::Moments(kind) => Ok(Datatype::Moment(kind)),
        Family::Strings => string_form(patterned, letters),
        Family::Ur | Family::Lists | Family::Names | Family::Others => Ok(Datatype::Text),
    }
}

/// The least integer of a built-in type, where there is one.
pub fn least_of(family: Family) -> Option<Bound>
    ensures { option_map stands_at result ≡ least_of family }
{
    match family {
        Family::Integers {
            least: Some(least),
            most: _,
        } => Some(Bound::at(least)),
        _ => None,
    }
}

/// The greatest integer of a built-in type, where there is one.
pub fn most_of(family: Family) -> Option<Bound>
    ensures { option_map stands_at result ≡ most_of family }
{
    match family {
        Family::Integers {
            least: _,
            most: Some(most),
        } => Some(Bound::at(most)),
        _ => None,
    }
}
