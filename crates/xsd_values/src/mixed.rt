//! Whether the content of each type is mixed, in one pass over the paths.

ghost use Rattle.std.specs.Prelude.{◌≡◌, IfOk};
ghost use Rattle.xsd_contents.specs.Contents.{is_yes};
ghost use Rattle.xsd_nodes.specs.Nodes.{text_at};
ghost use Rattle.xsd_nodes.specs.declared.attribute_name.AttributeName.TheVariants as attribute;
ghost use Rattle.xsd_values.specs.Mixed.{is_mixed_complex, is_mixed_extension, is_mixed_in, mixed_base};
ghost use Rattle.xsd_values.specs.Told.{AreMixed, mixed_by, mixed_told};

use std::alloc::{AllocError, Global};
use xsd_builtins::ANY_TYPE;
use xsd_components::{Schema, TypeAt};
use xsd_contents::{is_mixed, is_yes, leaves_base};
use xsd_nodes::{AttributeName, Part, holder, is_at, is_part, text_at};
use xsd_paths::Paths;

/// Whether the content of a type is mixed, as far as it is known.
pub fn mixed_told(mixed: &[bool], of: TypeAt) -> bool
    ensures { result ≡ mixed_told mixed.now of }
{
    match of {
        TypeAt::Built(place) => place == ANY_TYPE,
        TypeAt::Node(place) => match mixed.get(place as usize) {
            Some(is_mixed) => *is_mixed,
            None => false,
        },
    }
}

/// Whether the content of a base is mixed, where there is one.
fn mixed_base(mixed: &[bool], base: Option<TypeAt>) -> bool
    ensures { result ≡ mixed_base (mixed_told mixed.now) base }
{
    match base {
        Some(base) => mixed_told(mixed, base),
        None => false,
    }
}

/// Whether the content that the extension at a place makes is mixed.
fn is_mixed_extension(
    alloc: Global,
    schema: &Schema<'_>,
    mixed: &[bool],
    place: u32,
) -> Result<bool, AllocError>
    ensures { IfOk result (λ b. b ≡ is_mixed_extension schema.now (mixed_told mixed.now) place) }
{
    if leaves_base(alloc, schema, place)? {
        Ok(mixed_base(mixed, schema.base(alloc, place)?))
    } else {
        is_mixed(alloc, schema, place)
    }
}

/// Whether the content that the restriction or extension at a place makes is mixed.
fn is_mixed_complex(
    alloc: Global,
    schema: &Schema<'_>,
    mixed: &[bool],
    place: u32,
) -> Result<bool, AllocError>
    ensures { IfOk result (λ b. b ≡ is_mixed_complex schema.now (mixed_told mixed.now) place) }
{
    let nodes = schema.document().nodes();
    if is_at(nodes, Part::Restriction, place) {
        is_mixed(alloc, schema, place)
    } else if is_at(nodes, Part::Extension, place) {
        is_mixed_extension(alloc, schema, mixed, place)
    } else {
        Ok(false)
    }
}

/// Whether the element at a place says of its own that its content is mixed.
fn is_mixed_alone(alloc: Global, schema: &Schema<'_>, place: u32) -> Result<bool, AllocError>
    ensures { IfOk result (λ b. b ≡ is_yes (text_at schema.now attribute.Mixed place)) }
{
    match text_at(schema.document().nodes(), AttributeName::Mixed, place) {
        Some(text) => is_yes(alloc, text),
        None => Ok(false),
    }
}

/// Whether the content of the complex type at a place is mixed, by the place of its derivation.
fn is_mixed_in(
    alloc: Global,
    schema: &Schema<'_>,
    mixed: &[bool],
    place: u32,
    derivation: Option<u32>,
) -> Result<bool, AllocError>
    ensures { IfOk result (λ b. b ≡ is_mixed_in schema.now (mixed_told mixed.now) place derivation) }
{
    match derivation {
        Some(derivation) => {
            let holder = holder(schema.document().nodes(), derivation);
            if is_part(Part::ComplexContent, holder) {
                is_mixed_complex(alloc, schema, mixed, derivation)
            } else {
                Ok(false)
            }
        }
        None => is_mixed_alone(alloc, schema, place),
    }
}

/// Whether the content of the type at a place is mixed, from what is known of its base.
fn mixed_by(
    alloc: Global,
    schema: &Schema<'_>,
    mixed: &[bool],
    place: u32,
) -> Result<bool, AllocError>
    ensures { IfOk result (λ b. b ≡ mixed_by schema.now (mixed_told mixed.now) place) }
{
    if is_at(schema.document().nodes(), Part::ComplexType, place) {
        is_mixed_in(alloc, schema, mixed, place, schema.derivation(place))
    } else {
        Ok(false)
    }
}

/// Whether the contents of all types whose paths end are mixed.
pub fn mixed_types(alloc: Global, paths: &Paths<'_>) -> Result<Vec<bool>, AllocError>
    ensures { IfOk result (λ v. AreMixed paths.now v.items) }
{
    let schema = paths.schema();
    let order = paths.order();
    let mut mixed = vec![in alloc; false; schema.document().nodes().len()]?;
    for place in order {
        let is_mixed = mixed_by(alloc, schema, mixed.as_slice(), *place)?;
        mixed[*place as usize] = is_mixed;
    }
    Ok(mixed)
}
