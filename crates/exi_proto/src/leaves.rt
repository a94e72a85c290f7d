//! The states that read one element.

ghost use Rattle.std.specs.Prelude.{◌≡◌, ◌<◌, ◌≤◌, ◌+◌, ◌*◌, [], ◌++◌, IfOk, OnOk, length, map};
ghost use Rattle.exi_gram.specs.Terminals.{step_rule};
ghost use Rattle.exi_proto.specs.Pieces.{choice};
ghost use Rattle.exi_proto.specs.Places.{allowed_at, in_each_at, laid, starts_evenly, with_first};
ghost use Rattle.exi_proto.specs.Tasks.{opening_at};
ghost use Rattle.exi_proto.specs.Protos.{element_piece, opening_piece, wild_piece};
ghost use Rattle.exi_proto.specs.Tasks.{Fits, ends_left, made, set_at, tasks_left};

use crate::spot::Spot;
use crate::steps::{leading, reading};
use crate::work::Work;
use exi_elements::Elements;
use exi_gram::{Items, Step, Terminal};
use exi_names::Txt;
use std::alloc::{AllocError, Global};
use xsd_model::Wild;

/// The steps to what reads each of these elements: it has two states, and one stands behind another from a place on.
fn starts_evenly(alloc: Global, places: &[u32], first: u32) -> Result<Items<Step>, AllocError>
    requires room { first + 2 * length places.now ≤ 4_294_967_295 }
    ensures { IfOk result (λ steps. map step_rule steps ≡ starts_evenly first places.now) }
{
    let mut steps = Items::new(alloc);
    let mut at = first;
    for _place in places {
        steps.push(leading(at))?;
        at += 2;
    }
    Ok(steps)
}

/// The steps that read any element of each URI, and lead to a place.
fn in_each(alloc: Global, uris: &[Txt], to: u32, before: u32) -> Result<Items<Step>, AllocError>
    requires room { before + length uris.now ≤ 4_294_967_295 }
    ensures { IfOk result (λ steps. map step_rule steps ≡ in_each_at to before uris.now) }
{
    let mut steps = Items::new(alloc);
    let mut place = before;
    for uri in uris {
        steps.push(Step {
            on: Some(Terminal::SeIn(uri.copy()?)),
            to,
            inner: None,
            particle: Some(place),
        })?;
        place += 1;
    }
    Ok(steps)
}

/// The steps that read an element that a wildcard allows, and lead to a place.
fn allowed(alloc: Global, wild: &Wild, to: u32, before: u32) -> Result<Items<Step>, AllocError>
    requires room { before + (wild_piece wild.now).particles ≤ 4_294_967_295 }
    ensures { IfOk result (λ steps. map step_rule steps ≡ allowed_at to before wild.now) }
{
    match wild {
        Wild::Any => {
            let mut steps = Items::new(alloc);
            steps.push(reading(Terminal::SeAny, to))?;
            Ok(steps)
        }
        Wild::Listed(uris) => in_each(alloc, uris.as_slice(), to, before),
    }
}

/// The step that reads the element at a place.
fn opening(
    alloc: Global,
    elements: &Elements<'_>,
    place: u32,
    spot: Spot,
) -> Result<Items<Step>, AllocError>
    requires room { spot.first + 1 < 4_294_967_296 }
    ensures { IfOk result (λ steps. map step_rule steps ≡ opening_at elements.now place (spot.first + 1) spot.before) }
{
    let mut steps = Items::new(alloc);
    if let Some(element) = elements.parts().elements().get(place as usize) {
        steps.push(Step {
            on: Some(Terminal::Se(element.name.copy()?)),
            to: spot.first + 1,
            inner: Some(elements.opener(place)),
            particle: Some(spot.before),
        })?;
    }
    Ok(steps)
}

impl Work {
    /// What reads the element at a place.
    fn push_opening(
        &mut self,
        alloc: Global,
        elements: &Elements<'_>,
        place: u32,
        spot: Spot,
    ) -> Result<(), AllocError>
        requires room { spot.first + 1 < 4_294_967_296 }
        ensures made { OnOk result (made self.new ≡ made self.old ++ with_first (ends_left self.old) (set_at spot (opening_piece elements.now place).states)) }
        ensures ends { OnOk result (ends_left self.new ≡ []) }
        ensures tasks { OnOk result (tasks_left self.new ≡ tasks_left self.old) }
    {
        let steps = opening(alloc, elements, place, spot)?;
        self.push_reading(alloc, steps, spot)
    }

    /// What reads each of the elements at these places, one behind another.
    fn push_each(
        &mut self,
        alloc: Global,
        elements: &Elements<'_>,
        places: &[u32],
        spot: Spot,
    ) -> Result<(), AllocError>
        requires fits { Fits spot (2 * length places.now) (length places.now) }
        requires ends { ends_left self.old ≡ [] }
        ensures made { OnOk result (made self.new ≡ made self.old ++ laid spot.first spot.before spot.next (map (opening_piece elements.now) places.now)) }
        ensures ends { OnOk result (ends_left self.new ≡ []) }
        ensures tasks { OnOk result (tasks_left self.new ≡ tasks_left self.old) }
    {
        let mut at = spot;
        for place in places {
            self.push_opening(alloc, elements, *place, at)?;
            at = at.behind(2, 1);
        }
        Ok(())
    }

    /// A choice of the elements at these places.
    fn push_openings(
        &mut self,
        alloc: Global,
        elements: &Elements<'_>,
        places: &[u32],
        spot: Spot,
    ) -> Result<(), AllocError>
        requires fits { Fits spot (2 * length places.now + 1) (length places.now) }
        ensures made { OnOk result (made self.new ≡ made self.old ++ with_first (ends_left self.old) (set_at spot (choice (map (opening_piece elements.now) places.now)).states)) }
        ensures ends { OnOk result (ends_left self.new ≡ []) }
        ensures tasks { OnOk result (tasks_left self.new ≡ tasks_left self.old) }
    {
        self.push_state(starts_evenly(alloc, places, spot.first + 1)?)?;
        self.push_each(alloc, elements, places, spot.behind(1, 0))
    }

    /// What reads the element at a place, or one of those that may stand for it.
    pub(crate) fn push_element(
        &mut self,
        alloc: Global,
        elements: &Elements<'_>,
        place: u32,
        spot: Spot,
    ) -> Result<(), AllocError>
        requires exists { place < length elements.now.elements }
        requires fits { Fits spot (length (element_piece elements.now place).states) (element_piece elements.now place).particles }
        ensures made { OnOk result (made self.new ≡ made self.old ++ with_first (ends_left self.old) (set_at spot (element_piece elements.now place).states)) }
        ensures ends { OnOk result (ends_left self.new ≡ []) }
        ensures tasks { OnOk result (tasks_left self.new ≡ tasks_left self.old) }
    {
        let places = elements.stand_ins(alloc, place)?;
        let places = places.as_slice();
        if places.len() == 1 {
            return self.push_opening(alloc, elements, places[0], spot);
        }
        self.push_openings(alloc, elements, places, spot)
    }

    /// What reads an element that a wildcard allows.
    pub(crate) fn push_wild(
        &mut self,
        alloc: Global,
        wild: &Wild,
        spot: Spot,
    ) -> Result<(), AllocError>
        requires fits { Fits spot 2 (wild_piece wild.now).particles }
        ensures made { OnOk result (made self.new ≡ made self.old ++ with_first (ends_left self.old) (set_at spot (wild_piece wild.now).states)) }
        ensures ends { OnOk result (ends_left self.new ≡ []) }
        ensures tasks { OnOk result (tasks_left self.new ≡ tasks_left self.old) }
    {
        let steps = allowed(alloc, wild, spot.first + 1, spot.before)?;
        self.push_reading(alloc, steps, spot)
    }
}
