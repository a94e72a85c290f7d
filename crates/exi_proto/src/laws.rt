//! What holds of grammars that are not yet normal. Each law is a function that does nothing: what it ensures is the law.

ghost use Rattle.exi_proto.specs.Made.{AllLeadInside, CountedIsMade};

/// The grammar of a type has as many states as were counted.
pub fn counted_is_made()
    ensures { CountedIsMade }
{}

/// Each step of the grammar of a type leads to one of its states, and so does its content.
pub fn all_lead_inside()
    ensures { AllLeadInside }
{}
