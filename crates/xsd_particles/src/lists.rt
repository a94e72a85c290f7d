//! All groups of elements and particles that a schema declares.

ghost use Rattle.std.specs.Prelude.{◌≡◌, ◌++◌, IfOk, OnOk};
ghost use Rattle.xsd_declared.specs.Lists.{one_of};
ghost use Rattle.xsd_particles.specs.Particles.{group_decl, groups_of, particle, particles_of};
ghost use Rattle.xsd_places.specs.Kinds.{is_kind};
ghost use Rattle.xsd_places.specs.declared.kind.Kind.TheVariants as kind;

use crate::content::group_decl;
use crate::terms::particle;
use exi_gram::Items;
use std::alloc::{AllocError, Global};
use xsd_model::{Group, Particle};
use xsd_places::{Kind, Places, is_kind};

/// Adds the group of elements at a place, where one is declared.
fn push_group_decl(
    found: &mut Items<Group>,
    places: &Places<'_>,
    place: u32,
) -> Result<(), AllocError>
    ensures { OnOk result (found.new ≡ found.old ++ one_of (is_kind kind.Group places.now place) (group_decl places.now place)) }
{
    if is_kind(Kind::Group, places.schema().document().nodes(), place) {
        found.push(group_decl(places, place))?;
    }
    Ok(())
}

/// The groups of elements that a schema declares, in the document's order.
///
/// # Errors
///
/// `AllocError` where memory is refused.
pub fn groups_of(alloc: Global, places: &Places<'_>) -> Result<Items<Group>, AllocError>
    ensures { IfOk result (λ l. l ≡ groups_of places.now) }
{
    let mut found = Items::new(alloc);
    for place in 0..places.schema().document().nodes().len() {
        push_group_decl(&mut found, places, place as u32)?;
    }
    Ok(found)
}

/// Adds the particle at a place, where one is declared.
fn push_particle(
    alloc: Global,
    found: &mut Items<Particle>,
    places: &Places<'_>,
    place: u32,
) -> Result<(), AllocError>
    ensures { OnOk result (found.new ≡ found.old ++ one_of (is_kind kind.Particle places.now place) (particle places.now place)) }
{
    if is_kind(Kind::Particle, places.schema().document().nodes(), place) {
        found.push(particle(alloc, places, place)?)?;
    }
    Ok(())
}

/// The particles that a schema declares, in the document's order.
///
/// # Errors
///
/// `AllocError` where memory is refused.
pub fn particles_of(alloc: Global, places: &Places<'_>) -> Result<Items<Particle>, AllocError>
    ensures { IfOk result (λ l. l ≡ particles_of places.now) }
{
    let mut found = Items::new(alloc);
    for place in 0..places.schema().document().nodes().len() {
        push_particle(alloc, &mut found, places, place as u32)?;
    }
    Ok(found)
}
