//! What a schema tells of its elements, attributes and types.

ghost use Rattle.std.specs.Prelude.{◌≡◌, ℕ, ◌<◌, ◌+◌, ◌^◌, ◌++◌, false, get_or, IfOk, OnOk, length, map};
ghost use Rattle.std.specs.List.{flat_map};
ghost use Rattle.exi_gram.specs.Outlines.{attribute_of};
ghost use Rattle.exi_compiled.specs.Compiled.{attribute_entries, can_be_cast, element_grammar, elements_of, fragment_grammar, global_entries, type_entries_from, type_grammar};
ghost use Rattle.exi_compile.specs.Entries.{element_entry_at, entries_at, named_at};
ghost use Rattle.exi_compile.specs.Tables.{Tells};
ghost use Rattle.exi_vocabulary.specs.FirstNames.{IsOfSize};

use exi_gram::{ElementEntry, Items, TypeEntry};
use exi_names::{Datatype, QName};
use exi_proto::datatype_of;
use exi_vocabulary::{agreeing_elements, element_names, global_elements};
use std::alloc::{AllocError, Global};
use xsd_model::{Components, ElementDecl, TypeDef};

/// The name of a type, where it has one, again.
fn copy_name(name: &Option<QName>) -> Result<Option<QName>, AllocError>
    ensures { IfOk result (λ n. n ≡ name.now) }
{
    match name {
        Some(name) => Ok(Some(name.copy()?)),
        None => Ok(None),
    }
}

/// The entry of the type at a place whose grammar stands at another.
fn type_entry(of: &TypeDef, full: u32, cast: bool) -> Result<TypeEntry, AllocError>
    requires room { full + 1 < 2 ^ 32 }
    ensures { IfOk result (λ e. e ≡ record { name = of.now.name; full = full; empty = full + 1; cast = cast }) }
{
    Ok(TypeEntry {
        name: copy_name(&of.name)?,
        full,
        empty: full + 1,
        cast,
    })
}

/// The entries of the types, with the places of their grammars and whether they can be cast.
pub(crate) fn type_entries(
    alloc: Global,
    parts: &Components,
    places: &[u32],
    casts: &[bool],
) -> Result<Items<TypeEntry>, AllocError>
    requires places { Tells 0 (type_grammar parts.now) (length parts.now.types) places.now }
    requires small { (place : ℕ) → get_or places.now place 0 + 1 < 2 ^ 32 }
    requires casts { Tells false (can_be_cast parts.now) (length parts.now.types) casts.now }
    ensures { IfOk result (λ types. types ≡ type_entries_from parts.now 0 parts.now.types) }
{
    let mut types = Items::new(alloc);
    for (place, of) in parts.types().iter().enumerate() {
        types.push(type_entry(of, places[place], casts[place])?)?;
    }
    Ok(types)
}

/// The entry of an element whose grammar stands at a place.
fn element_entry(element: &ElementDecl, full: u32) -> Result<ElementEntry, AllocError>
    requires room { full + 1 < 2 ^ 32 }
    ensures { IfOk result (λ e. e ≡ element_entry_at full element.now) }
{
    Ok(ElementEntry {
        name: element.name.copy()?,
        full,
        empty: full + 1,
        nillable: element.nillable,
    })
}

/// Adds the entry of the element at a place, where there is one.
fn push_entry(
    entries: &mut Items<ElementEntry>,
    elements: &[ElementDecl],
    grammars: &[u32],
    place: u32,
) -> Result<(), AllocError>
    requires long { length grammars.now ≡ length elements.now }
    requires small { (place : ℕ) → get_or grammars.now place 0 + 1 < 2 ^ 32 }
    ensures { OnOk result (entries.new ≡ entries.old ++ entries_at elements.now grammars.now place) }
{
    let index = place as usize;
    if index < elements.len() {
        entries.push(element_entry(&elements[index], grammars[index])?)?;
    }
    Ok(())
}

/// The entries of the elements at these places.
fn entries_from(
    alloc: Global,
    elements: &[ElementDecl],
    grammars: &[u32],
    places: &[u32],
) -> Result<Items<ElementEntry>, AllocError>
    requires long { length grammars.now ≡ length elements.now }
    requires small { (place : ℕ) → get_or grammars.now place 0 + 1 < 2 ^ 32 }
    ensures { IfOk result (λ entries. entries ≡ flat_map (entries_at elements.now grammars.now) places.now) }
{
    let mut entries = Items::new(alloc);
    for place in places {
        push_entry(&mut entries, elements, grammars, *place)?;
    }
    Ok(entries)
}

/// The entries of the global elements, in the order of their names.
pub(crate) fn globals(
    alloc: Global,
    parts: &Components,
    grammars: &[u32],
) -> Result<Items<ElementEntry>, AllocError>
    requires size { IsOfSize parts.now }
    requires grammars { Tells 0 (element_grammar parts.now) (length parts.now.elements) grammars.now }
    requires small { (place : ℕ) → get_or grammars.now place 0 + 1 < 2 ^ 32 }
    ensures { IfOk result (λ entries. entries ≡ global_entries parts.now) }
{
    let places = global_elements(alloc, parts)?;
    let entries = entries_from(alloc, parts.elements(), grammars, places.as_slice())?;
    Ok(entries)
}

/// Adds the name of the element at a place, where there is one, with the place of its grammar, where all of its name agree,
/// or else another.
fn push_named(
    named: &mut Items<(QName, u32)>,
    elements: &[ElementDecl],
    grammars: &[u32],
    agree: &[bool],
    place: u32,
    otherwise: u32,
) -> Result<(), AllocError>
    requires long { length grammars.now ≡ length elements.now }
    requires agree_long { length agree.now ≡ length elements.now }
    ensures { OnOk result (named.new ≡ named.old ++ named_at elements.now grammars.now agree.now otherwise place) }
{
    let index = place as usize;
    if index < elements.len() {
        let grammar = if agree[index] {
            grammars[index]
        } else {
            otherwise
        };
        named.push((elements[index].name.copy()?, grammar))?;
    }
    Ok(())
}

/// The names of the elements at these places, each with the place of a grammar.
fn named_from(
    alloc: Global,
    elements: &[ElementDecl],
    grammars: &[u32],
    agree: &[bool],
    places: &[u32],
    otherwise: u32,
) -> Result<Items<(QName, u32)>, AllocError>
    requires long { length grammars.now ≡ length elements.now }
    requires agree_long { length agree.now ≡ length elements.now }
    ensures { IfOk result (λ named. named ≡ flat_map (named_at elements.now grammars.now agree.now otherwise) places.now) }
{
    let mut named = Items::new(alloc);
    for place in places {
        push_named(&mut named, elements, grammars, agree, *place, otherwise)?;
    }
    Ok(named)
}

/// The names that elements have anywhere, each with the place of the grammar of its declarations, where all of them open
/// one, or else this.
pub(crate) fn named_elements(
    alloc: Global,
    parts: &Components,
    grammars: &[u32],
    otherwise: u32,
) -> Result<Items<(QName, u32)>, AllocError>
    requires size { IsOfSize parts.now }
    requires grammars { Tells 0 (element_grammar parts.now) (length parts.now.elements) grammars.now }
    requires otherwise { otherwise ≡ fragment_grammar parts.now }
    ensures { IfOk result (λ named. named ≡ elements_of parts.now) }
{
    let agree = agreeing_elements(alloc, parts)?;
    let places = element_names(alloc, parts)?;
    let elements = parts.elements();
    let named = named_from(
        alloc,
        elements,
        grammars,
        agree.as_slice(),
        places.as_slice(),
        otherwise,
    )?;
    Ok(named)
}

/// The entries of the global attributes.
pub(crate) fn attributes(
    alloc: Global,
    parts: &Components,
) -> Result<Items<(QName, Datatype)>, AllocError>
    ensures { IfOk result (λ entries. map attribute_of entries ≡ attribute_entries parts.now parts.now.attributes) }
{
    let mut entries = Items::new(alloc);
    for attribute in parts.attributes() {
        if attribute.global {
            entries.push((
                attribute.name.copy()?,
                datatype_of(alloc, parts, attribute.of)?,
            ))?;
        }
    }
    Ok(entries)
}
