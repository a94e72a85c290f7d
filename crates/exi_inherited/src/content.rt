//! The content of a type with what it has of its bases.

ghost use Rattle.std.specs.Prelude.{◌≡◌, IfOk};
ghost use Rattle.exi_inherited.specs.Bases.{complex_base};
ghost use Rattle.exi_inherited.specs.Contents.{content_of, derived_content, extended, no_content, own_content};
ghost use Rattle.exi_inherited.specs.Shown.{built_on, only, whole_of};

use exi_gram::Items;
use std::alloc::{AllocError, Global};
use xsd_model::{Complex, Components, Content, Derivation, TypeBody};

/// What a type contains with what it has of its bases.
#[derive(Debug, Drop)]
pub enum Whole {
    /// A value of the simple type at this place.
    Value(u32),
    /// Elements.
    Elements {
        /// Whether any may stand in front, as in `xs:anyType`.
        any: bool,
        /// The places of the particles, which stand one after another.
        particles: Items<u32>,
        /// Whether text may stand among them.
        mixed: bool,
    },
}

/// No content.
fn nothing(alloc: Global) -> Whole
    ensures { whole_of result ≡ no_content }
{
    Whole::Elements {
        any: false,
        particles: Items::new(alloc),
        mixed: false,
    }
}

/// What a particle alone contains, where there is one.
fn only(alloc: Global, particle: Option<u32>, mixed: bool) -> Result<Whole, AllocError>
    ensures { IfOk result (λ w. whole_of w ≡ only particle mixed) }
{
    let mut particles = Items::new(alloc);
    if let Some(place) = particle {
        particles.push(place)?;
    }
    Ok(Whole::Elements {
        any: false,
        particles,
        mixed,
    })
}

/// What the base contains, and behind it a particle, where there is one.
fn extended(
    alloc: Global,
    base: Whole,
    particle: Option<u32>,
    mixed: bool,
) -> Result<Whole, AllocError>
    ensures { IfOk result (λ w. whole_of w ≡ extended (whole_of base) particle mixed) }
{
    match base {
        Whole::Value(_) => only(alloc, particle, mixed),
        Whole::Elements {
            any,
            mut particles,
            mixed: _,
        } => {
            if let Some(place) = particle {
                particles.push(place)?;
            }
            Ok(Whole::Elements {
                any,
                particles,
                mixed,
            })
        }
    }
}

/// The content of a complex type, by that of its base.
fn derived(alloc: Global, complex: &Complex, base: Whole) -> Result<Whole, AllocError>
    ensures { IfOk result (λ w. whole_of w ≡ derived_content complex.now.derivation complex.now.content (whole_of base)) }
{
    match complex.derivation {
        Derivation::Extension => match &complex.content {
            Content::Empty => Ok(base),
            Content::Simple(place) => Ok(Whole::Value(*place)),
            Content::Parts { particle, mixed } => extended(alloc, base, *particle, *mixed),
        },
        Derivation::Restriction => match &complex.content {
            Content::Empty => Ok(nothing(alloc)),
            Content::Simple(place) => Ok(Whole::Value(*place)),
            Content::Parts { particle, mixed } => only(alloc, *particle, *mixed),
        },
    }
}

/// The content of the type at a place, by that of its base.
fn own_content(
    alloc: Global,
    parts: &Components,
    place: u32,
    base: Whole,
) -> Result<Whole, AllocError>
    ensures { IfOk result (λ w. whole_of w ≡ own_content parts.now place (whole_of base)) }
{
    let Some(of) = parts.types().get(place as usize) else {
        return Ok(nothing(alloc));
    };
    match &of.body {
        TypeBody::Simple { form: _, union: _ } => Ok(Whole::Value(place)),
        TypeBody::Complex(complex) => derived(alloc, complex, base),
        TypeBody::Ur => Ok(Whole::Elements {
            any: true,
            particles: Items::new(alloc),
            mixed: true,
        }),
    }
}

/// The place of the base of the type at a place, where that is a complex type and has one.
pub(crate) fn complex_base(parts: &Components, place: u32) -> Option<u32>
    ensures { result ≡ complex_base parts.now place }
{
    let of = parts.types().get(place as usize)?;
    match &of.body {
        TypeBody::Simple { form: _, union: _ } => None,
        TypeBody::Complex(_) => of.base,
        TypeBody::Ur => None,
    }
}

/// A type, its base, the base of that, and so on.
fn bases_of(alloc: Global, parts: &Components, of: u32) -> Result<Vec<u32>, AllocError>
    ensures { IfOk result (λ bases. built_on parts.now bases.items no_content ≡ content_of parts.now of) }
{
    let mut bases = Vec::new(alloc);
    let mut next = Some(of);
    // A type has fewer bases than there are types.
    let most = parts.types().len() + 1;
    for _step in 0..most {
        match next {
            Some(place) => {
                bases.push(place)?;
                next = complex_base(parts, place);
            }
            None => return Ok(bases),
        }
    }
    Ok(bases)
}

/// The content of the type at a place, with what it has of its bases (XML Schema 1.0 Part 1, section 3.4.2). Takes time in
/// proportion to how many bases the type has.
///
/// # Errors
///
/// `AllocError` where memory is refused.
pub fn content_of(alloc: Global, parts: &Components, of: u32) -> Result<Whole, AllocError>
    ensures { IfOk result (λ w. whole_of w ≡ content_of parts.now of) }
{
    let mut bases = bases_of(alloc, parts, of)?;
    let mut whole = nothing(alloc);
    while let Some(place) = bases.pop() {
        whole = own_content(alloc, parts, place, whole)?;
    }
    Ok(whole)
}
