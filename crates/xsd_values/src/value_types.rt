//! The type of the value of each type, in one pass over the paths.

ghost use Rattle.std.specs.Prelude.{◌≡◌, IfOk};
ghost use Rattle.xsd_values.specs.Told.{AreValues, value_by, value_told};

use std::alloc::{AllocError, Global};
use xsd_builtins::ANY_TYPE;
use xsd_components::{Schema, TypeAt};
use xsd_contents::{ValueStep, value_here};
use xsd_paths::Paths;

/// The type of the value of a type, as far as it is known.
pub fn value_told(values: &[Option<TypeAt>], of: TypeAt) -> Option<TypeAt>
    ensures { result ≡ value_told values.now of }
{
    match of {
        TypeAt::Built(place) => { if place == ANY_TYPE { None } else { Some(of) } }
        TypeAt::Node(place) => match values.get(place as usize) {
            Some(value) => *value,
            None => Some(of),
        },
    }
}

/// The type of the value of the type at a place, from what is known of its base.
fn value_by(
    alloc: Global,
    schema: &Schema<'_>,
    values: &[Option<TypeAt>],
    place: u32,
) -> Result<Option<TypeAt>, AllocError>
    ensures { IfOk result (λ t. t ≡ value_by schema.now (value_told values.now) place) }
{
    match value_here(alloc, schema, TypeAt::Node(place))? {
        ValueStep::Ends(found) => Ok(found),
        ValueStep::Goes(base) => Ok(value_told(values, base)),
    }
}

/// The types of the values of all types whose paths end.
pub fn value_types(alloc: Global, paths: &Paths<'_>) -> Result<Vec<Option<TypeAt>>, AllocError>
    ensures { IfOk result (λ v. AreValues paths.now v.items) }
{
    let schema = paths.schema();
    let order = paths.order();
    let mut values = vec![in alloc; None; schema.document().nodes().len()]?;
    for place in order {
        let value = value_by(alloc, schema, values.as_slice(), *place)?;
        values[*place as usize] = value;
    }
    Ok(values)
}
