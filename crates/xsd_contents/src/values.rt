//! The simple type of a content that is a value.

ghost use Rattle.std.specs.Prelude.{◌≡◌, IfOk};
ghost use Rattle.xsd_contents.specs.Contents.{by_base, value_derived, value_here, value_in_complex, value_in_simple, value_type};

use crate::content::leaves_base;
use crate::value_step::ValueStep;
use std::alloc::{AllocError, Global};
use xsd_builtins::ANY_TYPE;
use xsd_components::{Schema, TypeAt};
use xsd_nodes::{Part, holder, is_at, is_part};

/// On to this base, where there is one.
fn by_base(base: Option<TypeAt>) -> ValueStep
    ensures { result ≡ by_base base }
{
    match base {
        Some(base) => ValueStep::Goes(base),
        None => ValueStep::Ends(None),
    }
}

/// The value of a type that is derived by the restriction or extension of a simpleContent.
fn value_in_simple(alloc: Global, schema: &Schema<'_>, place: u32) -> Result<ValueStep, AllocError>
    ensures { IfOk result (λ s. s ≡ value_in_simple schema.now place) }
{
    let nodes = schema.document().nodes();
    if is_at(nodes, Part::Restriction, place) {
        Ok(ValueStep::Ends(Some(TypeAt::Node(place))))
    } else if is_at(nodes, Part::Extension, place) {
        Ok(by_base(schema.base(alloc, place)?))
    } else {
        Ok(ValueStep::Ends(None))
    }
}

/// The value of a type that is derived by the restriction or extension of a complexContent.
fn value_in_complex(alloc: Global, schema: &Schema<'_>, place: u32) -> Result<ValueStep, AllocError>
    ensures { IfOk result (λ s. s ≡ value_in_complex schema.now place) }
{
    if !is_at(schema.document().nodes(), Part::Extension, place) {
        return Ok(ValueStep::Ends(None));
    }
    if leaves_base(alloc, schema, place)? {
        Ok(by_base(schema.base(alloc, place)?))
    } else {
        Ok(ValueStep::Ends(None))
    }
}

/// The value of a complex type whose derivation is at this place, where it has one.
fn value_derived(
    alloc: Global,
    schema: &Schema<'_>,
    derivation: Option<u32>,
) -> Result<ValueStep, AllocError>
    ensures { IfOk result (λ s. s ≡ value_derived schema.now derivation) }
{
    match derivation {
        Some(place) => {
            let holder = holder(schema.document().nodes(), place);
            if is_part(Part::SimpleContent, holder) {
                value_in_simple(alloc, schema, place)
            } else if is_part(Part::ComplexContent, holder) {
                value_in_complex(alloc, schema, place)
            } else {
                Ok(ValueStep::Ends(None))
            }
        }
        None => Ok(ValueStep::Ends(None)),
    }
}

/// The value of a type: a simple type is its own.
///
/// # Errors
///
/// `AllocError` where memory is refused.
pub fn value_here(alloc: Global, schema: &Schema<'_>, of: TypeAt) -> Result<ValueStep, AllocError>
    ensures { IfOk result (λ s. s ≡ value_here schema.now of) }
{
    match of {
        TypeAt::Built(place) => {
            if place == ANY_TYPE {
                Ok(ValueStep::Ends(None))
            } else {
                Ok(ValueStep::Ends(Some(of)))
            }
        }
        TypeAt::Node(place) => {
            if schema.is_simple(of) {
                Ok(ValueStep::Ends(Some(of)))
            } else {
                value_derived(alloc, schema, schema.derivation(place))
            }
        }
    }
}

/// The simple type of the content of a type, where that is a value: it is looked for along the bases. Where these lead to a
/// type twice, there is none.
///
/// # Errors
///
/// `AllocError` where memory is refused.
pub fn value_type(
    alloc: Global,
    schema: &Schema<'_>,
    of: TypeAt,
) -> Result<Option<TypeAt>, AllocError>
    ensures { IfOk result (λ t. t ≡ value_type schema.now of) }
{
    let mut at = of;
    for _ in 0..schema.document().nodes().len() + 1 {
        match value_here(alloc, schema, at)? {
            ValueStep::Ends(found) => return Ok(found),
            ValueStep::Goes(base) => at = base,
        }
    }
    Ok(None)
}
