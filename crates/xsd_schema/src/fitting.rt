//! Whether the base of a type's simpleContent or complexContent fits (XML Schema 1.0 Part 1, sections 3.4.2 and 3.4.6).
//!
//! The content of a simpleContent's base is a value. A restriction may also have a base whose content is mixed, where it holds the
//! simple type that the value is to have. Behind values an extension adds no elements:
//!
//! ```text
//!   1  complexType name="length"
//!   2    simpleContent
//!   3      extension base="xs:decimal"         fits
//!   4  complexType name="height"
//!   5    complexContent
//!   6      extension base="length"             does not fit
//!   7        sequence
//!   8          element name="unit"
//! ```

ghost use Rattle.std.specs.Prelude.{◌≡◌, true, IfOk, Some};
ghost use Rattle.xsd_paths.specs.Paths.{is_whole_type};
ghost use Rattle.xsd_schema.specs.Fitting.{fits, fits_elements, fits_value, has_value, is_no_base, lacks_fitting_base};

use std::alloc::{AllocError, Global};
use xsd_components::TypeAt;
use xsd_contents::leaves_base;
use xsd_nodes::{AttributeName, Part, holder, is_among, is_among_at, is_at, is_part, text_at};
use xsd_values::Values;

/// Whether the content of a type is a value.
fn has_value(values: &Values<'_>, of: TypeAt) -> bool
    requires whole { is_whole_type values.now of ≡ true }
    ensures { result ≡ has_value values.now of }
{
    values.value_type(of).is_some()
}

/// Whether a type can be the base of the restriction or extension of a simpleContent.
fn fits_value(values: &Values<'_>, place: u32, of: TypeAt) -> bool
    requires whole { is_whole_type values.now of ≡ true }
    ensures { result ≡ fits_value values.now place of }
{
    let schema = values.schema();
    if is_at(schema.document().nodes(), Part::Restriction, place) {
        schema.complex_only(Some(of)).is_some()
            && (has_value(values, of)
                || (schema.inline(place).is_some() && values.is_mixed_type(of)))
    } else {
        has_value(values, of)
    }
}

/// Whether a type can be the base of the restriction or extension of a complexContent.
fn fits_elements(
    alloc: Global,
    values: &Values<'_>,
    place: u32,
    of: TypeAt,
) -> Result<bool, AllocError>
    requires whole { is_whole_type values.now of ≡ true }
    ensures { IfOk result (λ b. b ≡ fits_elements values.now place of) }
{
    let schema = values.schema();
    if !is_at(schema.document().nodes(), Part::Extension, place) || !has_value(values, of) {
        return Ok(true);
    }
    leaves_base(alloc, schema, place)
}

/// Whether a type can be the base of the restriction or extension at a place.
fn fits(alloc: Global, values: &Values<'_>, place: u32, of: TypeAt) -> Result<bool, AllocError>
    requires whole { is_whole_type values.now of ≡ true }
    ensures { IfOk result (λ b. b ≡ fits values.now place of) }
{
    let holder = holder(values.schema().document().nodes(), place);
    if is_part(Part::SimpleContent, holder) {
        Ok(fits_value(values, place, of))
    } else if is_part(Part::ComplexContent, holder) {
        fits_elements(alloc, values, place, of)
    } else {
        Ok(true)
    }
}

/// Whether the base is not there or does not fit. Asked where the paths from it end.
fn is_no_base(
    alloc: Global,
    values: &Values<'_>,
    place: u32,
    base: Option<TypeAt>,
) -> Result<bool, AllocError>
    ensures { IfOk result (λ b. b ≡ is_no_base values.now place base) }
{
    match base {
        Some(base) => {
            if values.paths().is_whole_type(base) {
                Ok(!fits(alloc, values, place, base)?)
            } else {
                Ok(false)
            }
        }
        None => Ok(true),
    }
}

/// Whether a restriction or extension within simpleContent or complexContent names a base that is not there or does not fit.
/// Asked where the paths from the base end.
///
/// # Errors
///
/// `AllocError` where memory is refused.
pub fn lacks_fitting_base(
    alloc: Global,
    values: &Values<'_>,
    place: u32,
) -> Result<bool, AllocError>
    ensures { IfOk result (λ b. b ≡ lacks_fitting_base values.now place) }
{
    let schema = values.schema();
    let nodes = schema.document().nodes();
    let contents = [Part::SimpleContent, Part::ComplexContent];
    if !is_among_at(nodes, &[Part::Restriction, Part::Extension], place)
        || !is_among(&contents, holder(nodes, place))
    {
        return Ok(false);
    }
    match text_at(nodes, AttributeName::Base, place) {
        Some(_) => is_no_base(alloc, values, place, schema.base(alloc, place)?),
        None => Ok(false),
    }
}
