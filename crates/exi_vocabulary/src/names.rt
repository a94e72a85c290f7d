//! The names of what a schema declares.

ghost use Rattle.std.specs.Prelude.{◌≡◌, ◌++◌, IfOk, OnOk, map};
ghost use Rattle.std.specs.List.{flat_map};
ghost use Rattle.exi_order.specs.Keys.{keys_of};
ghost use Rattle.exi_vocabulary.specs.Collected.{pair_of};
ghost use Rattle.exi_vocabulary.specs.FirstNames.{declared_names, type_names};
ghost use Rattle.exi_vocabulary.specs.Vocabulary.{attribute_name, element_name};

use exi_names::QName;
use exi_order::Key;
use std::alloc::{AllocError, Global};
use xsd_model::{AttributeDecl, Components, ElementDecl, TypeDef};

/// A name, by its local name and its URI.
fn key(name: &QName) -> Key<'_>
    ensures local { result.first.now ≡ name.now.local }
    ensures uri { result.second.now ≡ name.now.uri }
{
    Key {
        first: &name.local,
        second: &name.uri,
    }
}

/// The names of these elements.
pub(crate) fn element_keys(
    alloc: Global,
    elements: &[ElementDecl],
) -> Result<Vec<Key<'_>>, AllocError>
    ensures { IfOk result (λ keys. keys_of keys.items ≡ map element_name elements.now) }
{
    let mut keys = Vec::with_capacity(alloc, elements.len())?;
    for element in elements {
        keys.push(key(&element.name))?;
    }
    Ok(keys)
}

/// The names of these attributes.
pub(crate) fn attribute_keys(
    alloc: Global,
    attributes: &[AttributeDecl],
) -> Result<Vec<Key<'_>>, AllocError>
    ensures { IfOk result (λ keys. keys_of keys.items ≡ map attribute_name attributes.now) }
{
    let mut keys = Vec::with_capacity(alloc, attributes.len())?;
    for attribute in attributes {
        keys.push(key(&attribute.name))?;
    }
    Ok(keys)
}

/// The names of those of these types that have one.
fn type_keys(alloc: Global, types: &[TypeDef]) -> Result<Vec<Key<'_>>, AllocError>
    ensures { IfOk result (λ keys. keys_of keys.items ≡ map pair_of (flat_map type_names types.now)) }
{
    let mut keys = Vec::new(alloc);
    for of in types {
        if let Some(name) = &of.name {
            keys.push(key(name))?;
        }
    }
    Ok(keys)
}

/// All names that elements, attributes and types have.
pub(crate) fn all_keys(alloc: Global, parts: &Components) -> Result<Vec<Key<'_>>, AllocError>
    ensures { IfOk result (λ keys. keys_of keys.items ≡ map pair_of (declared_names parts.now)) }
{
    let mut keys = element_keys(alloc, parts.elements())?;
    keys.append(&mut attribute_keys(alloc, parts.attributes())?)?;
    keys.append(&mut type_keys(alloc, parts.types())?)?;
    Ok(keys)
}
