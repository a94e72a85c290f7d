//! How the values of simple types are represented.

ghost use Rattle.std.specs.Prelude.{◌≡◌, IfOk, get_or};
ghost use Rattle.exi_names.specs.Datatypes.{represented, text};
ghost use Rattle.xsd_model.specs.Parts.{AreForms, representations};
ghost use Rattle.exi_proto.specs.Lists.{list_of};
ghost use Rattle.exi_proto.specs.Protos.{representation_of};

use exi_names::Datatype;
use std::alloc::{AllocError, Global};
use xsd_model::{Components, Form, TypeBody};

/// The most lists that lie in one another; XML Schema 1.0 allows none in another (Part 2, section 2.5.1.2).
const MOST_LISTS: u32 = 64;

/// The datatype of lists that lie in one another so many deep, with items of this one.
fn list_of(alloc: Global, item: Datatype, depth: u32) -> Result<Datatype, AllocError>
    ensures { IfOk result (λ d. represented d ≡ list_of depth (represented item)) }
{
    let mut datatype = item;
    for _level in 0..depth {
        datatype = Datatype::List(Box::new(alloc, datatype)?);
    }
    Ok(datatype)
}

/// Another datatype that is as the form at a place tells.
fn datatype_at(alloc: Global, forms: &[Form], place: u32) -> Result<Datatype, AllocError>
    requires forms { AreForms 0 forms.now }
    ensures { IfOk result (λ d. represented d ≡ get_or (representations forms.now) place text) }
{
    let mut at = place;
    let mut depth = 0u32;
    loop {
        match forms.get(at as usize) {
            None => return list_of(alloc, Datatype::Text, depth),
            Some(Form::Item(datatype)) => return list_of(alloc, datatype.copy(alloc)?, depth),
            Some(Form::List(item)) => {
                if depth == MOST_LISTS {
                    return Err(AllocError);
                }
                at = *item;
                depth += 1;
            }
        }
    }
}

/// The datatype of the simple type at a place.
///
/// # Errors
///
/// `AllocError` where memory is refused, or where more than 64 lists lie in one another.
pub fn datatype_of(alloc: Global, parts: &Components, of: u32) -> Result<Datatype, AllocError>
    ensures { IfOk result (λ d. represented d ≡ representation_of parts.now of) }
{
    let Some(of) = parts.types().get(of as usize) else {
        return Ok(Datatype::Text);
    };
    match &of.body {
        TypeBody::Simple { form, union: _ } => datatype_at(alloc, parts.forms(), *form),
        TypeBody::Complex(_) => Ok(Datatype::Text),
        TypeBody::Ur => Ok(Datatype::Text),
    }
}
