ghost use Rattle.exi_tape.specs.Props.{AllSound-prop};
ghost use Rattle.exi_tape.specs.Reading.{read};
ghost use Rattle.exi_tape.specs.Tapes.{AllSound, IsTape};

use crate::roll::Roll;

/// A list of events, on pages of a pool.
///
/// A tape that is dropped takes its pages with it: [`Tape::give_back`] gives them to their pool.
#[derive(Drop)]
pub struct Tape {
    pub(crate) roll: Roll,
    ghost spells: { IsTape roll.bytes },
    ghost sound: { AllSound (read roll.bytes) } by { AllSound-prop (read roll.bytes) },
}
