//! The first string tables.

ghost use Rattle.std.specs.Prelude.{◌≡◌, ◌≤◌, ℕ, List, ◌++◌, IfOk, OnOk, map, length};
ghost use Rattle.std.specs.List.{flat_map};
ghost use Rattle.std.specs.Str.{bytes_eq, chars};
ghost use Rattle.exi_order.specs.Keys.{key_of, keys_of};
ghost use Rattle.exi_vocabulary.specs.Collected.{IsPut, in_order_behind, pair_of, row_of, with_names, with_texts};
ghost use Rattle.exi_vocabulary.specs.FirstNames.{IsOfSize, all_locals, all_uris, declared_names, first_names_of, known_locals, known_uris, particle_uris, told_uris, type_uris, wild_uris, wild_uris_of};

use crate::names::all_keys;
use crate::texts::Texts;
use exi_names::{StartNames, Txt, TxtList, TxtLists};
use exi_order::Key;
use indexmap::IndexMap;
use std::alloc::{AllocError, Global};
use xsd_model::{Components, Particle, Term, TypeBody, TypeDef, Wild};

const XML: &str = "http://www.w3.org/XML/1998/namespace";

const XSI: &str = "http://www.w3.org/2001/XMLSchema-instance";

const XSD: &str = "http://www.w3.org/2001/XMLSchema";

/// The URIs that stand first in every schema.
const KNOWN_URIS: [&str; 4] = ["", XML, XSI, XSD];

const XML_NAMES: [&str; 4] = ["base", "id", "lang", "space"];

const XSI_NAMES: [&str; 2] = ["nil", "type"];

/// The first string tables: the URIs of the schema's names, of its target and of its wildcards behind the four of every schema, and
/// under each URI the local names of all elements, attributes and types, sorted.
///
/// # Errors
///
/// `AllocError` where memory is refused.
pub fn first_names(alloc: Global, parts: &Components) -> Result<StartNames, AllocError>
    requires size { IsOfSize parts.now }
    ensures { IfOk result (λ n. n ≡ first_names_of parts.now) }
{
    let names = all_keys(alloc, parts)?;
    let uris = uris(alloc, parts, names.as_slice())?;
    let locals = locals(alloc, names.as_slice(), uris.as_slice())?;
    Ok(StartNames::of(uris, locals))
}

// ---- URIs

/// Adds the URIs that a wildcard lists.
fn add_wild(uris: &mut Texts, wild: &Wild) -> Result<(), AllocError>
    ensures { OnOk result (uris.new ≡ with_texts uris.old (wild_uris wild.now)) }
{
    match wild {
        Wild::Any => Ok(()),
        Wild::Listed(listed) => uris.add_all(listed.as_slice()),
    }
}

/// Adds those that the attribute wildcard of a type lists.
fn add_type(uris: &mut Texts, of: &TypeDef) -> Result<(), AllocError>
    ensures { OnOk result (uris.new ≡ with_texts uris.old (type_uris of.now)) }
{
    if let TypeBody::Complex(complex) = &of.body {
        if let Some(wild) = &complex.wild {
            return add_wild(uris, wild);
        }
    }
    Ok(())
}

/// Adds those that a particle lists, where it is of a wildcard.
fn add_particle(uris: &mut Texts, particle: &Particle) -> Result<(), AllocError>
    ensures { OnOk result (uris.new ≡ with_texts uris.old (particle_uris particle.now)) }
{
    match &particle.term {
        Term::Wild(wild) => add_wild(uris, wild),
        Term::Element(_) | Term::Group(_) | Term::Sequence(_) | Term::Choice(_) => Ok(()),
    }
}

/// Adds those that the types' wildcards list.
fn add_types(uris: &mut Texts, types: &[TypeDef]) -> Result<(), AllocError>
    ensures { OnOk result (uris.new ≡ with_texts uris.old (flat_map type_uris types.now)) }
{
    for of in types {
        add_type(uris, of)?;
    }
    Ok(())
}

/// Adds those that the particles' wildcards list.
fn add_particles(uris: &mut Texts, particles: &[Particle]) -> Result<(), AllocError>
    ensures { OnOk result (uris.new ≡ with_texts uris.old (flat_map particle_uris particles.now)) }
{
    for particle in particles {
        add_particle(uris, particle)?;
    }
    Ok(())
}

/// Adds those of the names.
fn add_uris(uris: &mut Texts, names: &[Key<'_>]) -> Result<(), AllocError>
    ensures { OnOk result (uris.new ≡ with_texts uris.old (map (λ k. k.1) (keys_of names.now))) }
{
    for name in names {
        uris.add(name.second)?;
    }
    Ok(())
}

/// All URIs, in the order of their places.
fn uris(alloc: Global, parts: &Components, names: &[Key<'_>]) -> Result<TxtList, AllocError>
    requires names { keys_of names.now ≡ map pair_of (declared_names parts.now) }
    ensures { IfOk result (λ l. l ≡ all_uris parts.now) }
{
    let mut uris = Texts::of(alloc, &KNOWN_URIS)?;
    uris.add(parts.target())?;
    add_uris(&mut uris, names)?;
    add_types(&mut uris, parts.types())?;
    add_particles(&mut uris, parts.particles())?;
    uris.in_order_behind(alloc, KNOWN_URIS.len())
}

// ---- local names

/// The local names that stand first under a URI in every schema.
fn known_locals(alloc: Global, uri: &Txt) -> Result<Texts, AllocError>
    ensures { IfOk result (λ t. t ≡ known_locals uri.now) }
{
    if is_text(uri, XML) {
        return Texts::of(alloc, &XML_NAMES);
    }
    if is_text(uri, XSI) {
        return Texts::of(alloc, &XSI_NAMES);
    }
    Texts::of(alloc, &[])
}

/// How many these are.
fn known_count(uri: &Txt) -> usize
    ensures { result ≡ length (known_locals uri.now) }
{
    if is_text(uri, XML) {
        return XML_NAMES.len();
    }
    if is_text(uri, XSI) {
        return XSI_NAMES.len();
    }
    0
}

/// Adds a local name to those of its URI.
fn add_local(
    alloc: Global,
    rows: &mut IndexMap<Txt, Texts>,
    name: &Key<'_>,
) -> Result<(), AllocError>
    ensures { OnOk result (IsPut rows.old.entries rows.new.entries (key_of name.now)) }
{
    if let Some(row) = rows.get_mut(name.second) {
        row.add(name.first)?;
        return Ok(());
    }
    let mut row = known_locals(alloc, name.second)?;
    row.add(name.first)?;
    rows.insert(name.second.copy()?, row)?;
    Ok(())
}

/// The local names of all URIs that have names.
fn rows(alloc: Global, names: &[Key<'_>]) -> Result<IndexMap<Txt, Texts>, AllocError>
    ensures { IfOk result (λ rows. (uri : List ℕ) →
        row_of rows.entries uri ≡ with_names uri (known_locals uri) (keys_of names.now)) }
{
    let mut rows = IndexMap::new(alloc);
    for name in names {
        add_local(alloc, &mut rows, name)?;
    }
    Ok(rows)
}

/// The local names of a URI in the order of their places.
fn row_in_order(
    alloc: Global,
    rows: &IndexMap<Txt, Texts>,
    uri: &Txt,
) -> Result<TxtList, AllocError>
    requires known { length (known_locals uri.now) ≤ length (row_of rows.now.entries uri.now) }
    ensures { IfOk result (λ l. l ≡ in_order_behind (length (known_locals uri.now)) (row_of rows.now.entries uri.now)) }
{
    match rows.get(uri) {
        Some(row) => row.in_order_behind(alloc, known_count(uri)),
        None => known_locals(alloc, uri)?.in_order_behind(alloc, known_count(uri)),
    }
}

/// The local names of each of these URIs, in the order of their places.
fn locals(alloc: Global, names: &[Key<'_>], uris: &[Txt]) -> Result<TxtLists, AllocError>
    ensures { IfOk result (λ l.
        l ≡ map (λ uri. in_order_behind (length (known_locals uri)) (with_names uri (known_locals uri) (keys_of names.now))) uris.now) }
{
    let rows = rows(alloc, names)?;
    let mut locals = TxtLists::new(alloc);
    for uri in uris {
        locals.push(row_in_order(alloc, &rows, uri)?)?;
    }
    Ok(locals)
}

/// Whether the text is this word.
fn is_text(text: &Txt, word: &str) -> bool
    ensures { result ≡ bytes_eq text.now (chars word.now) }
{
    text.as_str() == word
}
