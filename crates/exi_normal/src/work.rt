//! The states of a normal grammar, one after another.

ghost use Rattle.std.specs.Prelude.{◌≡◌, ◌<◌, ◌≤◌, ◌++◌, ◌∷◌, [], suc, IfOk, OnOk, All, get_or, length, map};
ghost use Rattle.exi_gram.specs.Terminals.{rule};
ghost use Rattle.exi_normal.specs.Normals.{any_differ, rows_from, rules_from, met_from, with_one_list, with_rows, with_state, with_targets, worked};
ghost use Rattle.exi_normal.specs.Spots.{row_at, row_seen};
ghost use Rattle.exi_normal.specs.Steps.{IsNumbered, states_of, symbols};
ghost use Rattle.exi_normal.specs.Working.{Reaches, found_none, next_of, target_of, with_row, work_of};

use crate::groups::{Group, groups_from};
use crate::lists::Lists;
use crate::marks::Marks;
use crate::numbered::Numbered;
use crate::order::{Spot, arrange};
use crate::stop::NormalStop;
use crate::walk::readings_from;
use exi_gram::{Class, Items, Production};
use std::alloc::{AllocError, Global};

/// What is used again for each state.
#[derive(Drop)]
pub(crate) struct Scratch {
    /// States that are seen.
    seen: Marks,
    /// Of each terminal the place of its group.
    notes: Vec<usize>,
}

impl Scratch {
    /// What a grammar needs.
    pub fn new(alloc: Global, numbered: &Numbered<'_>) -> Result<Scratch, AllocError> {
        Ok(Scratch {
            seen: Marks::new(alloc, numbered.states.len())?,
            notes: vec![in alloc; 0; numbered.terminals.count()]?,
        })
    }
}

/// The steps that are read next from the states of a list, by what they read.
fn groups(
    alloc: Global,
    numbered: &Numbered<'_>,
    scratch: &mut Scratch,
    members: &[u32],
) -> Result<Vec<Group>, AllocError>
    requires numbered { IsNumbered numbered.now }
    ensures rows { IfOk result (λ v. map (row_seen (symbols numbered.now.terminals)) v.items ≡ rows_from [] (met_from (states_of numbered.now) members.now)) }
    ensures there { IfOk result (λ v. All (λ g. g.on < length (symbols numbered.now.terminals)) v.items) }
{
    let states = numbered.states.as_slice();
    let readings = readings_from(alloc, states, members, &mut scratch.seen)?;
    let groups = groups_from(alloc, readings.as_slice(), scratch.notes.as_mut_slice())?;
    Ok(groups)
}

/// The productions that groups are.
fn spots<'r>(
    alloc: Global,
    numbered: &'r Numbered<'_>,
    groups: &'r [Group],
) -> Result<Vec<Spot<'r>>, AllocError>
    requires there { All (λ g. g.on < length (symbols numbered.now.terminals)) groups.now }
    ensures { IfOk result (λ v. map row_at v.items ≡ map (row_seen (symbols numbered.now.terminals)) groups.now) }
{
    let mut spots = Vec::new(alloc);
    for group in groups {
        spots.push(Spot {
            terminal: numbered.terminals.get(group.on),
            group,
        })?;
    }
    Ok(spots)
}

/// Whether steps of one production open different grammars.
fn any_differ(spots: &[Spot<'_>]) -> bool
    ensures { result ≡ any_differ (map row_at spots.now) }
{
    for spot in spots {
        if spot.group.differs {
            return true;
        }
    }
    false
}

/// Sees states, each once, in the order in which they first come.
fn see_all(seen: &mut Marks, states: &[u32]) -> Result<(), AllocError>
    ensures { OnOk result (seen.new ≡ with_targets states.now []) }
{
    seen.clear();
    for state in states {
        if !seen.has(*state) {
            seen.put(*state)?;
        }
    }
    Ok(())
}

/// The state to which a production leads.
fn target(
    alloc: Global,
    lists: &mut Lists,
    seen: &mut Marks,
    spot: &Spot<'_>,
    own: u32,
    most: u32,
) -> Result<u32, NormalStop>
    ensures target { IfOk result (λ n. n ≡ target_of own (row_at spot.now) lists.old) }
    ensures lists { OnOk result (lists.new ≡ with_row (row_at spot.now) lists.old) }
    ensures stop { Reaches most (with_row (row_at spot.now) lists.old) result }
{
    if spot.is_of(Class::Ee) {
        return Ok(own);
    }
    see_all(seen, spot.group.targets.as_slice())?;
    let number = lists.number(alloc, seen.states())?;
    if lists.count() > most as usize {
        return Err(NormalStop::TooLarge);
    }
    Ok(number as u32)
}

/// The productions of a state.
fn rules(
    alloc: Global,
    lists: &mut Lists,
    seen: &mut Marks,
    spots: &[Spot<'_>],
    own: u32,
    most: u32,
) -> Result<Items<Production>, NormalStop>
    ensures rules { IfOk result (λ l. map rule l ≡ rules_from own (map row_at spots.now) lists.old) }
    ensures lists { OnOk result (lists.new ≡ with_rows (map row_at spots.now) lists.old) }
    ensures stop { Reaches most (with_rows (map row_at spots.now) lists.old) result }
{
    let mut rules = Items::new(alloc);
    for spot in spots {
        let to = target(alloc, lists, seen, spot, own, most)?;
        rules.push(Production {
            on: spot.terminal.copy(alloc)?,
            to,
            inner: spot.group.inner,
        })?;
    }
    Ok(rules)
}

/// What is known so far.
#[derive(Drop)]
pub(crate) struct Found {
    /// The states.
    pub lists: Lists,
    /// Of the first of them the productions.
    pub states: Items<Items<Production>>,
    /// Whether steps of one state that read the same open different grammars.
    pub differs: bool,
}

impl Found {
    /// Nothing.
    pub fn new(alloc: Global) -> Found
        ensures { work_of result ≡ found_none }
    {
        Found {
            lists: Lists::new(alloc),
            states: Items::new(alloc),
            differs: false,
        }
    }

    /// Adds a list.
    pub fn add(&mut self, alloc: Global, state: u32) -> Result<(), AllocError>
        ensures { OnOk result (work_of self.new ≡ with_one_list (state ∷ []) (work_of self.old)) }
    {
        self.lists.number(alloc, &[state])?;
        Ok(())
    }

    /// Finds the productions of the next state.
    fn next(
        &mut self,
        alloc: Global,
        numbered: &Numbered<'_>,
        scratch: &mut Scratch,
        most: u32,
    ) -> Result<(), NormalStop>
        requires numbered { IsNumbered numbered.now }
        requires behind { length self.old.states < length self.old.lists }
        requires few { length self.old.lists ≤ most }
        ensures work { OnOk result (work_of self.new ≡ next_of (states_of numbered.now) (work_of self.old)) }
        ensures stop { Reaches most (next_of (states_of numbered.now) (work_of self.old)).lists result }
    {
        let own = self.states.as_slice().len();
        let groups = groups(alloc, numbered, scratch, self.lists.get(own))?;
        let mut spots = spots(alloc, numbered, groups.as_slice())?;
        arrange(alloc, spots.as_mut_slice())?;
        let lists = &mut self.lists;
        let rules = rules(
            alloc,
            lists,
            &mut scratch.seen,
            spots.as_slice(),
            own as u32,
            most,
        )?;
        self.states.push(rules)?;
        self.differs = self.differs || any_differ(spots.as_slice());
        Ok(())
    }

    /// State by state, until all are known, or there are too many.
    pub fn run(
        &mut self,
        alloc: Global,
        numbered: &Numbered<'_>,
        scratch: &mut Scratch,
        most: u32,
    ) -> Result<(), NormalStop>
        requires numbered { IsNumbered numbered.now }
        requires behind { length self.old.states ≤ length self.old.lists }
        ensures behind { OnOk result (length self.new.states ≤ length self.new.lists) }
        ensures work { OnOk result (work_of self.new ≡ worked (states_of numbered.now) most (suc most) (work_of self.old)) }
        ensures stop { Reaches most (worked (states_of numbered.now) most (suc most) (work_of self.old)).lists result }
    {
        for _turn in 0..u64::from(most) + 1 {
            let count = self.lists.count();
            if count > most as usize || self.states.as_slice().len() == count {
                return Ok(());
            }
            self.next(alloc, numbered, scratch, most)?;
        }
        Ok(())
    }
}
