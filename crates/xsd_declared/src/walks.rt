//! The types of all elements, found along the heads of their substitution groups.
//!
//! Where each element comes to along so many heads is a table. Two tables give that along both together, so that a few tables lead
//! along all heads, however many follow one another.

ghost use Rattle.std.specs.Prelude.{◌≡◌, ◌+◌, IfOk, length, map};
ghost use Rattle.xsd_declared.specs.Decls.{element_type, type_step};
ghost use Rattle.xsd_declared.specs.Walks.{AreTypes, AreWalked, joined_if_odd, settled, step_in};
ghost use Rattle.xsd_nodes.specs.Nodes.{places};

use crate::elements::{element_type, type_step};
use crate::type_step::TypeStep;
use std::alloc::{AllocError, Global};
use xsd_builtins::ANY_TYPE;
use xsd_components::{Schema, TypeAt};

/// Where an element comes to that has come so far, by these steps.
fn step_in(steps: &[TypeStep], from: TypeStep) -> TypeStep
    ensures { result ≡ step_in steps.now from }
{
    match from {
        TypeStep::Ends(_) => from,
        TypeStep::Goes(head) => match steps.get(head as usize) {
            Some(step) => *step,
            None => from,
        },
    }
}

/// Where each comes to by the first steps and then by others.
fn joined(
    alloc: Global,
    first: &[TypeStep],
    others: &[TypeStep],
) -> Result<Vec<TypeStep>, AllocError>
    ensures { IfOk result (λ v. v.items ≡ map (step_in others.now) first.now) }
{
    let mut steps = Vec::new(alloc);
    for step in first {
        steps.push(step_in(others, *step))?;
    }
    Ok(steps)
}

/// Where each comes to by the first steps, and where the number is odd then by others.
fn joined_if_odd(
    alloc: Global,
    left: usize,
    first: Vec<TypeStep>,
    others: &[TypeStep],
) -> Result<Vec<TypeStep>, AllocError>
    ensures { IfOk result (λ v. v.items ≡ joined_if_odd left first.items others.now) }
{
    if left % 2 == 1 {
        joined(alloc, first.as_slice(), others)
    } else {
        Ok(first)
    }
}

/// What each element tells of its type.
fn first_steps(alloc: Global, schema: &Schema<'_>) -> Result<Vec<TypeStep>, AllocError>
    ensures { IfOk result (λ v. v.items ≡ map (type_step schema.now) (places schema.now)) }
{
    let mut steps = Vec::new(alloc);
    for place in 0..schema.document().nodes().len() {
        steps.push(type_step(alloc, schema, place as u32)?)?;
    }
    Ok(steps)
}

/// The same steps.
fn copied(alloc: Global, from: &[TypeStep]) -> Result<Vec<TypeStep>, AllocError>
    ensures { IfOk result (λ v. v.items ≡ from.now) }
{
    let mut steps = Vec::new(alloc);
    for step in from {
        steps.push(*step)?;
    }
    Ok(steps)
}

/// Where each element comes to along one head more than there are elements.
fn walked(alloc: Global, schema: &Schema<'_>) -> Result<Vec<TypeStep>, AllocError>
    ensures { IfOk result (λ v. AreWalked schema.now (length schema.now + 1) v.items) }
{
    let mut power = first_steps(alloc, schema)?;
    let mut walked = copied(alloc, power.as_slice())?;
    let mut left = schema.document().nodes().len();
    while left > 0 {
        walked = joined_if_odd(alloc, left, walked, power.as_slice())?;
        power = joined(alloc, power.as_slice(), power.as_slice())?;
        left /= 2;
    }
    Ok(walked)
}

/// The type that a step ends in.
fn settled(step: TypeStep) -> TypeAt
    ensures { result ≡ settled step }
{
    match step {
        TypeStep::Ends(of) => of,
        TypeStep::Goes(_) => TypeAt::Built(ANY_TYPE),
    }
}

/// The types that the steps end in.
fn settled_all(alloc: Global, steps: &[TypeStep]) -> Result<Vec<TypeAt>, AllocError>
    ensures { IfOk result (λ v. v.items ≡ map settled steps.now) }
{
    let mut types = Vec::new(alloc);
    for step in steps {
        types.push(settled(*step))?;
    }
    Ok(types)
}

/// The types of all elements.
pub(crate) fn element_types(alloc: Global, schema: &Schema<'_>) -> Result<Vec<TypeAt>, AllocError>
    ensures { IfOk result (λ v. AreTypes schema.now v.items) }
{
    let steps = walked(alloc, schema)?;
    let types = settled_all(alloc, steps.as_slice())?;
    Ok(types)
}

/// The type of the element at a place, of those of all elements.
pub(crate) fn type_among(
    alloc: Global,
    schema: &Schema<'_>,
    types: &[TypeAt],
    place: u32,
) -> Result<TypeAt, AllocError>
    requires types { AreTypes schema.now types.now }
    ensures { IfOk result (λ t. t ≡ element_type schema.now place) }
{
    match types.get(place as usize) {
        Some(of) => Ok(*of),
        None => element_type(alloc, schema, place),
    }
}
