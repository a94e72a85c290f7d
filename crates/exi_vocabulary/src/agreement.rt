//! Whether the declarations of one name agree.

ghost use Rattle.std.specs.Prelude.{◌≡◌, IfOk, OnOk, map};
ghost use Rattle.std.specs.Option.{option_copied};
ghost use Rattle.exi_vocabulary.specs.Named.{name_pair};
ghost use Rattle.exi_vocabulary.specs.Agreement.{agree_or, all_same, of_attribute, of_element, shown, told_by, told_in, told_more, told_of};
ghost use Rattle.exi_vocabulary.specs.FirstNames.{IsOfSize};
ghost use Rattle.exi_vocabulary.specs.Vocabulary.{all_alike, all_of_type};
ghost use Rattle.exi_vocabulary.specs.declared.name.Name.{Name};

use crate::name::Name;
use exi_gram::Items;
use indexmap::IndexMap;
use std::alloc::{AllocError, Global};
use xsd_model::{AttributeDecl, Components, ElementDecl};

/// A name, and what all its declarations have to have alike.
#[derive(Clone, Copy, Debug)]
pub(crate) struct Declared<'a> {
    pub(crate) name: Name<'a>,
    /// The place of its type.
    pub(crate) of: u32,
    /// Whether `xsi:nil` can empty it.
    pub(crate) nillable: bool,
}

/// What the first declaration of a name has, and whether the others have the same.
#[derive(Clone, Copy, Debug)]
pub(crate) struct Told {
    pub(crate) of: u32,
    pub(crate) nillable: bool,
    pub(crate) agree: bool,
}

/// What is told by one declaration more.
fn told_by(told: Option<&Told>, declared: &Declared<'_>) -> Told
    ensures { result ≡ told_by (option_copied told.entry) (shown declared.now) }
{
    match told {
        None => Told {
            of: declared.of,
            nillable: declared.nillable,
            agree: true,
        },
        Some(told) => Told {
            of: told.of,
            nillable: told.nillable,
            agree: told.agree && told.of == declared.of && told.nillable == declared.nillable,
        },
    }
}

/// Notes one declaration more.
fn tell<'a>(tolds: &mut IndexMap<Name<'a>, Told>, declared: &Declared<'a>) -> Result<(), AllocError>
    ensures { OnOk result ((name : Name) →
        told_in tolds.new.entries name ≡ told_more (name_pair name) (told_in tolds.old.entries name) (shown declared.now)) }
{
    let told = told_by(tolds.get(&declared.name), declared);
    tolds.insert(declared.name, told)?;
    Ok(())
}

/// What is told of each name.
fn tolds<'a>(
    alloc: Global,
    declared: &[Declared<'a>],
) -> Result<IndexMap<Name<'a>, Told>, AllocError>
    ensures { IfOk result (λ tolds. (name : Name) →
        told_in tolds.entries name ≡ told_of (name_pair name) (map shown declared.now)) }
{
    let mut tolds = IndexMap::new(alloc);
    for one in declared {
        tell(&mut tolds, one)?;
    }
    Ok(tolds)
}

/// Whether the declarations agree of which this is told; those of no name do.
fn agree_or(told: Option<&Told>) -> bool
    ensures { result ≡ agree_or (option_copied told.entry) }
{
    match told {
        Some(told) => told.agree,
        None => true,
    }
}

/// Of each of these whether all of its name have the same.
fn agreeing(alloc: Global, declared: &[Declared<'_>]) -> Result<Items<bool>, AllocError>
    ensures { IfOk result (λ agree. agree ≡ map (λ d. all_same d (map shown declared.now)) (map shown declared.now)) }
{
    let tolds = tolds(alloc, declared)?;
    let mut agree = Items::new(alloc);
    for one in declared {
        agree.push(agree_or(tolds.get(&one.name)))?;
    }
    Ok(agree)
}

/// Elements as they are declared.
fn declared_elements(
    alloc: Global,
    elements: &[ElementDecl],
) -> Result<Vec<Declared<'_>>, AllocError>
    ensures { IfOk result (λ declared. map shown declared.items ≡ map of_element elements.now) }
{
    let mut declared = Vec::with_capacity(alloc, elements.len())?;
    for element in elements {
        declared.push(Declared {
            name: Name::of(&element.name),
            of: element.of,
            nillable: element.nillable,
        })?;
    }
    Ok(declared)
}

/// Attributes as they are declared; `xsi:nil` empties none.
fn declared_attributes(
    alloc: Global,
    attributes: &[AttributeDecl],
) -> Result<Vec<Declared<'_>>, AllocError>
    ensures { IfOk result (λ declared. map shown declared.items ≡ map of_attribute attributes.now) }
{
    let mut declared = Vec::with_capacity(alloc, attributes.len())?;
    for attribute in attributes {
        declared.push(Declared {
            name: Name::of(&attribute.name),
            of: attribute.of,
            nillable: false,
        })?;
    }
    Ok(declared)
}

/// Of each element whether all of its name have its type, and `xsi:nil` can empty all or none of them.
///
/// # Errors
///
/// `AllocError` where memory is refused.
pub fn agreeing_elements(alloc: Global, parts: &Components) -> Result<Items<bool>, AllocError>
    requires size { IsOfSize parts.now }
    ensures { IfOk result (λ agree. agree ≡ map (λ e. all_alike e parts.now.elements) parts.now.elements) }
{
    let declared = declared_elements(alloc, parts.elements())?;
    agreeing(alloc, declared.as_slice())
}

/// Of each attribute whether all of its name have its type.
///
/// # Errors
///
/// `AllocError` where memory is refused.
pub fn agreeing_attributes(alloc: Global, parts: &Components) -> Result<Items<bool>, AllocError>
    requires size { IsOfSize parts.now }
    ensures { IfOk result (λ agree. agree ≡ map (λ a. all_of_type a parts.now.attributes) parts.now.attributes) }
{
    let declared = declared_attributes(alloc, parts.attributes())?;
    agreeing(alloc, declared.as_slice())
}
