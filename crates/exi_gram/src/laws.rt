//! What is spelled and what is read are the same. Each law is a function that does nothing: what it
//! ensures is the law, for productions of any type.

ghost use Rattle.exi_gram.specs.Wholes.{without_schema};
ghost use Rattle.exi_gram.specs.Schemas.{IsSchema};
ghost use Rattle.exi_gram.specs.CodeTrees.{CodeIsChosen, PlaceIsRead, StateIsCodeSet};
ghost use Rattle.exi_gram.specs.Laws.{CodeGoesOn, CodeIsNoPrefix, CodeIsOfState, CodeIsParts, CodeIsRead, CodeIsSpelled, MappedIsRead, PlacedIsNumbered, PrunedIsClosedUp};

/// The production that is read has a code of the state, and the bits of that code were taken.
pub fn read_is_spelled<T>()
    ensures { CodeIsSpelled T }
{}

/// The bits of a code tell its production, whatever follows.
pub fn spelled_is_read<T>()
    ensures { CodeIsRead T }
{}

/// No code's bits are a proper prefix of another's in the same state, and equal bits are of one code.
pub fn none_is_prefix<T>()
    ensures { CodeIsNoPrefix T }
{}

/// Where options switch productions off no group is left empty.
pub fn pruned_is_closed_up<T>()
    ensures { PrunedIsClosedUp T }
{}

/// With other things in the productions' place, what is read is what stands for the production.
pub fn mapped_is_read<T, U>()
    ensures { MappedIsRead T U }
{}

/// With places in the productions' place, the codes tell the places in their order.
pub fn placed_is_numbered<T>()
    ensures { PlacedIsNumbered T }
{}

/// The Document grammar alone is a schema, as every schema has to be: what there is without one.
pub fn without_schema_is_schema()
    ensures { IsSchema without_schema }
{}

/// A code is read part by part as the codes of its state go on: each fault is that of the first part
/// which none of them has there, or whose bits are not there, at the first bit of that part.
pub fn code_is_parts<T>()
    ensures { CodeIsParts T }
{}

/// A code is read as by the codes of its state alone, part by part, and tells the same production.
pub fn code_is_chosen<T>()
    ensures { CodeIsChosen T }
{}

/// With places for the productions, what is read is the place of the code in the list of the codes.
pub fn place_is_read<T>()
    ensures { PlaceIsRead T }
{}

/// The codes of a state are such as a compiled table can hold.
pub fn state_is_code_set<T>()
    ensures { StateIsCodeSet T }
{}

/// What a code tells is one of the state's productions.
pub fn code_is_of_state<T>()
    ensures { CodeIsOfState T }
{}

/// Reading a code stays in the same bytes, and does not go back.
pub fn code_goes_on<T>()
    ensures { CodeGoesOn T }
{}
