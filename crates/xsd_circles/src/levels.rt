//! Levels that never rise along a step.

ghost use Rattle.std.specs.Prelude.{◌≡◌, true, length};
ghost use Rattle.xsd_circles.specs.Levels.{NeverRise, are_under, is_so, is_under, level_at};

use xsd_steps::Steps;

/// The level of a place.
pub(crate) fn level_at(levels: &[u32], place: u32) -> u32
    ensures { result ≡ level_at levels.now place }
{
    match levels.get(place as usize) {
        Some(level) => *level,
        None => 0,
    }
}

/// Whether a step leads below a level, if it leads anywhere.
fn is_under(levels: &[u32], bound: u64, step: Option<u32>) -> bool
    ensures { result ≡ is_so (is_under levels.now bound) step }
{
    match step {
        Some(place) => u64::from(level_at(levels, place)) < bound,
        None => true,
    }
}

/// Whether each step leads below a level.
pub(crate) fn are_under(levels: &[u32], bound: u64, steps: &[Option<u32>]) -> bool
    ensures { result ≡ are_under levels.now bound steps.now }
{
    for step in steps {
        if !is_under(levels, bound, *step) {
            return false;
        }
    }
    true
}

/// The number of elements.
pub(crate) fn count_of(steps: &Steps<'_>) -> u32
    ensures { result ≡ length steps.now }
{
    steps.schema().document().nodes().len() as u32
}

/// Whether no step leads higher.
pub(crate) fn never_rise(levels: &[u32], steps: &Steps<'_>) -> bool
    ensures { result ≡ true → NeverRise steps.now levels.now }
{
    for place in 0..count_of(steps) {
        let bound = u64::from(level_at(levels, place)) + 1;
        if !are_under(levels, bound, steps.steps(place)) {
            return false;
        }
    }
    true
}
