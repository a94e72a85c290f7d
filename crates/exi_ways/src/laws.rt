//! From a state of a book only states, grammars and names are reached that are there. Each law is a
//! function that does nothing: what it ensures is the law.

ghost use Rattle.exi_ways.specs.Laws.{CodesAreLeft, CodesCloseUp, DocumentsLead, EntriesAreForms, FormsStand, FragmentsLead, GrammarsStand, PartsLead, PlainStands};

/// A book has as many grammars as its schema; without one it has Document alone. A grammar that opens an
/// element, and its empty form, have a first state, and what is looked up by the name of an element or type
/// is such a grammar.
pub fn forms_stand()
    ensures grammars { GrammarsStand }
    ensures plain { PlainStands }
    ensures forms { FormsStand }
    ensures entries { EntriesAreForms }
{}

/// In the grammar of an element or type a production is neither SD nor ED, leads to a state of that grammar,
/// opens the grammar of an element, if any, and names what stands in the first string tables.
pub fn parts_lead()
    ensures law { PartsLead }
{}

/// Document has three states: SD leads to the content and an element to the end, and all else that stands
/// there leaves the state as it is.
pub fn documents_lead()
    ensures law { DocumentsLead }
{}

/// Fragment, which a schema has, has two states: SD leads to the content, and all that stands there leaves
/// the state as it is.
pub fn fragments_lead()
    ensures law { FragmentsLead }
{}

/// Each production of a book is one that the options leave.
pub fn codes_are_left()
    ensures law { CodesAreLeft }
{}

/// In no state of a book is a group of productions empty.
pub fn codes_close_up()
    ensures law { CodesCloseUp }
{}
