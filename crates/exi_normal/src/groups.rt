//! Steps that read the same, as one production.

ghost use Rattle.std.specs.Prelude.{◌≡◌, ◌∷◌, ◌++◌, [], IfOk, OnOk, Option, None, Some};
ghost use Rattle.exi_normal.specs.Normals.{least, same_inner};
ghost use Rattle.exi_normal.specs.Numbers.{AreNoted, group_of, groups_from, joined, place_on, with_reading};

use crate::walk::Reading;
use exi_gram::Items;
use std::alloc::{AllocError, Global};

/// Steps that read the same.
#[derive(Drop)]
pub(crate) struct Group {
    /// The number of their terminal.
    pub on: usize,
    /// The states to which they lead, with repeats.
    pub targets: Items<u32>,
    /// The place of the grammar that the first of them opens.
    pub inner: Option<u32>,
    /// Whether others open another.
    pub differs: bool,
    /// The least place of a particle.
    pub particle: Option<u32>,
}

/// Whether both are the same grammar, or none.
fn same_inner(a: Option<u32>, b: Option<u32>) -> bool
    ensures { result ≡ same_inner a b }
{
    match (a, b) {
        (None, None) => true,
        (Some(a), Some(b)) => a == b,
        _ => false,
    }
}

/// The lesser place of a particle, where there is one.
fn least(a: Option<u32>, b: Option<u32>) -> Option<u32>
    ensures { result ≡ least a b }
{
    match (a, b) {
        (Some(a), Some(b)) => Some(a.min(b)),
        (None, b) => b,
        (a, None) => a,
    }
}

impl Group {
    /// A step by itself.
    fn of(alloc: Global, reading: Reading) -> Result<Group, AllocError>
        ensures { IfOk result (λ g. g ≡ group_of reading) }
    {
        let mut targets = Items::new(alloc);
        targets.push(reading.to)?;
        Ok(Group {
            on: reading.on,
            targets,
            inner: reading.inner,
            differs: false,
            particle: reading.particle,
        })
    }

    /// Puts one more step in.
    fn join(&mut self, reading: Reading) -> Result<(), AllocError>
        ensures { OnOk result (self.new ≡ joined reading self.old) }
    {
        self.targets.push(reading.to)?;
        if !same_inner(reading.inner, self.inner) {
            self.differs = true;
        }
        self.particle = least(reading.particle, self.particle);
        Ok(())
    }
}

/// The place of a terminal's group among these.
fn search(groups: &[Group], on: usize) -> Option<usize>
    ensures { result ≡ place_on on groups.now }
{
    groups.iter().position(|group| on == group.on)
}

/// The place of a terminal's group, where each is noted by its terminal. What is noted of other terminals may be anything.
fn place_on(groups: &[Group], notes: &[usize], on: usize) -> Option<usize>
    requires noted { AreNoted notes.now groups.now }
    ensures { result ≡ place_on on groups.now }
{
    match notes.get(on) {
        Some(place) => match groups.get(*place) {
            Some(group) => { if on == group.on { Some(*place) } else { None } }
            None => None,
        },
        None => search(groups, on),
    }
}

/// Puts a step into its group.
fn put(
    alloc: Global,
    groups: &mut Vec<Group>,
    notes: &mut [usize],
    reading: Reading,
) -> Result<(), AllocError>
    requires noted { AreNoted notes.old groups.old.items }
    ensures groups { OnOk result (groups.new.items ≡ with_reading reading groups.old.items) }
    ensures noted { OnOk result (AreNoted notes.new groups.new.items) }
{
    match place_on(groups.as_slice(), notes, reading.on) {
        Some(place) => groups[place].join(reading)?,
        None => {
            let place = groups.len();
            groups.push(Group::of(alloc, reading)?)?;
            if reading.on < notes.len() {
                notes[reading.on] = place;
            }
        }
    }
    Ok(())
}

/// The steps by what they read, in the order in which that is first read.
///
/// # Errors
///
/// `AllocError` where memory is refused.
pub(crate) fn groups_from(
    alloc: Global,
    readings: &[Reading],
    notes: &mut [usize],
) -> Result<Vec<Group>, AllocError>
    ensures { IfOk result (λ v. v.items ≡ groups_from [] readings.now) }
{
    let mut groups = Vec::new(alloc);
    for reading in readings {
        put(alloc, &mut groups, notes, *reading)?;
    }
    Ok(groups)
}
