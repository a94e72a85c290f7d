//! What holds of the choice. The law is a function that does nothing: what it ensures is the law.

ghost use Rattle.exi_choice.specs.Wanted.{ChosenSuits};

/// The production that is chosen for an event is the first of those of its kind that tell its name and in which its value
/// has a spelling, where all of the event has a spelling there: in a state that was reached no other has one.
pub fn chosen_suits()
    ensures law { ChosenSuits }
{}
