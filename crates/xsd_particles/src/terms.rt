//! The particles that a schema declares.

ghost use Rattle.std.specs.Prelude.{◌≡◌, IfOk};
ghost use Rattle.xsd_contents.specs.Contents.{particles};
ghost use Rattle.xsd_particles.specs.Particles.{group_meant, kept, least_at, most_at, particle, term_at, wild_of, within};

use exi_gram::Items;
use std::alloc::{AllocError, Global};
use xsd_components::Schema;
use xsd_contents::number_at;
use xsd_declared::element_meant;
use xsd_model::{Particle, Term, Wild};
use xsd_nodes::{AttributeName, Part, is_at};
use xsd_places::{Kind, Places, is_particle};
use xsd_told::most_at;
use xsd_wildcards::{Allowed, allowed_at};

/// A wildcard, as an EXI grammar tells it apart.
pub fn wild_of(allowed: Allowed) -> Wild
    ensures { result ≡ wild_of allowed }
{
    match allowed {
        Allowed::Every => Wild::Any,
        Allowed::OtherThan(_) => Wild::Any,
        Allowed::These(uris) => Wild::Listed(uris),
    }
}

/// How often something stands, at most 2^32 - 1.
fn kept(count: u128) -> u32
    ensures { result ≡ kept count }
{
    if count < 4_294_967_295 {
        count as u32
    } else {
        u32::MAX
    }
}

/// How often the element at a place stands at least: once, where it tells nothing.
fn least_at(alloc: Global, schema: &Schema<'_>, place: u32) -> Result<u32, AllocError>
    ensures { IfOk result (λ n. n ≡ least_at schema.now place) }
{
    if !is_particle(schema.document().nodes(), place) {
        return Ok(1);
    }
    match number_at(alloc, schema, AttributeName::MinOccurs, place)? {
        Some(least) => Ok(kept(least)),
        None => Ok(1),
    }
}

/// How often the element at a place stands at most, where there is a bound: once, where it tells nothing.
fn most_kept(alloc: Global, schema: &Schema<'_>, place: u32) -> Result<Option<u32>, AllocError>
    ensures { IfOk result (λ n. n ≡ most_at schema.now place) }
{
    if !is_particle(schema.document().nodes(), place) {
        return Ok(Some(1));
    }
    match most_at(alloc, schema, place)? {
        Some(Some(most)) => Ok(Some(kept(most))),
        Some(None) => Ok(None),
        None => Ok(Some(1)),
    }
}

/// The elements of which a particle is one.
fn particle_parts() -> &'static [Part]
    ensures { result.now ≡ particles }
{
    &[
        Part::Element,
        Part::Group,
        Part::Choice,
        Part::Sequence,
        Part::Any,
        Part::All,
    ]
}

/// The places of the particles within the element at a place, in the document's order.
fn within(alloc: Global, places: &Places<'_>, place: u32) -> Result<Items<u32>, AllocError>
    ensures { IfOk result (λ l. l ≡ within places.now place) }
{
    let document = places.schema().document();
    let held = document.children(alloc, particle_parts(), place)?;
    let mut found = Items::new(alloc);
    for child in held.as_slice() {
        found.push(places.place(Kind::Particle, *child))?;
    }
    Ok(found)
}

/// The place of the group of elements that the element at a place refers to; 0 where it refers to none that is there.
fn group_meant(alloc: Global, schema: &Schema<'_>, place: u32) -> Result<u32, AllocError>
    ensures { IfOk result (λ p. p ≡ group_meant schema.now place) }
{
    match schema.text_names(alloc, &[Part::Group], place, AttributeName::Ref)? {
        Some(found) => Ok(found),
        None => Ok(0),
    }
}

/// What the particle at a place is of.
fn term_at(alloc: Global, places: &Places<'_>, place: u32) -> Result<Term, AllocError>
    ensures { IfOk result (λ t. t ≡ term_at places.now place) }
{
    let schema = places.schema();
    let nodes = schema.document().nodes();
    if is_at(nodes, Part::Element, place) {
        let element = element_meant(alloc, schema, place)?;
        return Ok(Term::Element(places.place(Kind::Element, element)));
    }
    if is_at(nodes, Part::Group, place) {
        let group = group_meant(alloc, schema, place)?;
        return Ok(Term::Group(places.place(Kind::Group, group)));
    }
    if is_at(nodes, Part::Any, place) {
        return Ok(Term::Wild(wild_of(allowed_at(alloc, nodes, place)?)));
    }
    let within = within(alloc, places, place)?;
    if is_at(nodes, Part::Choice, place) {
        Ok(Term::Choice(within))
    } else {
        Ok(Term::Sequence(within))
    }
}

/// The particle at a place (XML Schema 1.0 Part 1, section 3.9.2).
///
/// # Errors
///
/// `AllocError` where memory is refused.
pub fn particle(alloc: Global, places: &Places<'_>, place: u32) -> Result<Particle, AllocError>
    ensures { IfOk result (λ p. p ≡ particle places.now place) }
{
    let schema = places.schema();
    Ok(Particle {
        least: least_at(alloc, schema, place)?,
        most: most_kept(alloc, schema, place)?,
        term: term_at(alloc, places, place)?,
    })
}
