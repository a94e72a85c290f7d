//! How much a schema declares.

ghost use Rattle.std.specs.Prelude.{◌≡◌, ◌+◌, ◌≤◌, ◌^◌, ◌++◌, IfSome, IsTrue, length, true};
ghost use Rattle.std.specs.List.{flat_map};
ghost use Rattle.exi_vocabulary.specs.FirstNames.{IsOfSize, particle_uris, told_uris, type_uris, wild_uris};

use xsd_model::{Components, Particle, Term, TypeBody, TypeDef, Wild};

/// The most that is taken of all together.
const MOST: u32 = 268_435_456;

/// So many more, where they are not too many.
fn more(count: u32, by: usize) -> Option<u32>
    requires few { count ≤ 268_435_456 }
    ensures { IfSome result (λ n. (n ≡ count + by) × (n ≤ 268_435_456)) }
{
    if by <= (MOST - count) as usize {
        Some(count + by as u32)
    } else {
        None
    }
}

/// How many URIs a wildcard lists.
fn wild_count(wild: &Wild) -> usize
    ensures { result ≡ length (wild_uris wild.now) }
{
    match wild {
        Wild::Any => 0,
        Wild::Listed(uris) => uris.as_slice().len(),
    }
}

/// How many that of a type lists.
fn type_count(of: &TypeDef) -> usize
    ensures { result ≡ length (type_uris of.now) }
{
    match &of.body {
        TypeBody::Complex(complex) => match &complex.wild {
            Some(wild) => wild_count(wild),
            None => 0,
        },
        TypeBody::Simple { form: _, union: _ } => 0,
        TypeBody::Ur => 0,
    }
}

/// How many that of a particle lists.
fn particle_count(particle: &Particle) -> usize
    ensures { result ≡ length (particle_uris particle.now) }
{
    match &particle.term {
        Term::Wild(wild) => wild_count(wild),
        Term::Element(_) | Term::Group(_) | Term::Sequence(_) | Term::Choice(_) => 0,
    }
}

/// With those that the wildcards of types list.
fn with_types(count: u32, types: &[TypeDef]) -> Option<u32>
    requires few { count ≤ 268_435_456 }
    ensures { IfSome result (λ n. (n ≡ count + length (flat_map type_uris types.now)) × (n ≤ 268_435_456)) }
{
    let mut all = count;
    for of in types {
        all = more(all, type_count(of))?;
    }
    Some(all)
}

/// With those that the wildcards of particles list.
fn with_particles(count: u32, particles: &[Particle]) -> Option<u32>
    requires few { count ≤ 268_435_456 }
    ensures { IfSome result (λ n. (n ≡ count + length (flat_map particle_uris particles.now)) × (n ≤ 268_435_456)) }
{
    let mut all = count;
    for particle in particles {
        all = more(all, particle_count(particle))?;
    }
    Some(all)
}

/// How many names there are and URIs are told, each name once for itself and once for its URI.
fn size(parts: &Components) -> Option<u32>
    ensures { IfSome result (λ n. IsOfSize parts.now) }
{
    let elements = parts.elements().len();
    let attributes = parts.attributes().len();
    let types = parts.types().len();
    let count = more(more(more(1, elements)?, attributes)?, types)?;
    let count = more(more(more(count, elements)?, attributes)?, types)?;
    with_particles(with_types(count, parts.types())?, parts.particles())
}

/// Whether there are not too many names of any kind.
pub(crate) fn is_of_size(parts: &Components) -> bool
    ensures { result ≡ true → IsOfSize parts.now }
{
    size(parts).is_some()
}
