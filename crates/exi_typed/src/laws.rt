//! What is spelled and what is read are the same. Each law is a function that does nothing: what it
//! ensures is the law.
//!
//! The first three speak of each kind of name and string, under the same string tables. A literal is its length in
//! characters and its characters. A URI is a place in the URI partition or a literal, told apart by one number. A
//! local name is a place in the partition of its URI, or its characters behind their number and one. A qualified name
//! is its URI, its local name and, where prefixes are kept, its prefix, and goes on as the least places of its texts.
//! A name that the event code tells has bits for its prefix alone, and its texts are charged all the same. A value that
//! is a name charges one unit beside its texts. A namespace declaration is a URI, a prefix in the partition of that URI,
//! and one bit. A string value is a place among the values of its name, a place among all values, or its characters
//! behind their number and two. What is spelled out is added, except the empty text as a value.
//!
//! The others say what each reading keeps, and where a name stands in the tables once it is read.

ghost use Rattle.std.specs.Prelude.{Bool, List, Option, ℕ};
ghost use Rattle.exi_bits.specs.declared.align.Align.{Align};
ghost use Rattle.exi_names.specs.declared.names.NameId.{NameId};
ghost use Rattle.exi_typed.specs.NameValues.{SpellsNameValue, name_value_at};
ghost use Rattle.exi_typed.specs.Limits.{StaysWithin};
ghost use Rattle.exi_typed.specs.Continues.{ReadsOn, KeepsEach, NamesGoOnStanding, NamesStand};
ghost use Rattle.exi_typed.specs.Strings.{Growth, declaration_at, known_at, literal_at, local_at, name_at, uri_at, value_at};
ghost use Rattle.exi_typed.specs.Metered.{ReadingsAreMetered};
ghost use Rattle.exi_typed.specs.Refused.{ReadingsAreRefused};
ghost use Rattle.exi_typed.specs.Spelled.{SpellsDeclaration, SpellsKnown, SpellsLiteral, SpellsLocal, SpellsName, SpellsUri, SpellsValue};
ghost use Rattle.exi_typed.specs.WrittenLaws.{
  DeclarationIsWritten,
  LiteralIsWritten,
  LocalIsWritten,
  NameIsWritten,
  PrefixIsWritten,
  StringIsWritten,
  UriIsWritten,
  WrittenIsRead,
};
ghost use Rattle.exi_typed.specs.Laws.{NoneIsPrefix, ReadIsSpelled, SpelledIsRead};

/// What is read is spelled so, the tables go on as the spelling says, and the meter took its charges in turn.
pub fn read_is_spelled()
    ensures literals { (a : Align) (grow : Growth) → ReadIsSpelled a (SpellsLiteral a grow) (literal_at a grow) }
    ensures uris { (a : Align) → ReadIsSpelled a (SpellsUri a) (uri_at a) }
    ensures locals { (a : Align) (uri : ℕ) → ReadIsSpelled a (SpellsLocal a uri) (local_at a uri) }
    ensures names { (keep : Bool) (a : Align) → ReadIsSpelled a (SpellsName keep a) (name_at keep a) }
    ensures known { (keep : Bool) (a : Align) (id : NameId) → ReadIsSpelled a (SpellsKnown keep a id) (known_at keep a id) }
    ensures name_values { (keep : Bool) (a : Align) → ReadIsSpelled a (SpellsNameValue keep a) (name_value_at keep a) }
    ensures declarations { (a : Align) → ReadIsSpelled a (SpellsDeclaration a) (declaration_at a) }
    ensures values { (set : Option (List ℕ)) (a : Align) (name : NameId) → ReadIsSpelled a (SpellsValue set a name) (value_at set a name) }
{}

/// What is spelled so is read, whatever follows, wherever a meter takes the charges in turn; where it does not, the
/// first charge that passes the limit is the fault, at its bit.
pub fn spelled_is_read()
    ensures literals { (a : Align) (grow : Growth) → SpelledIsRead a (SpellsLiteral a grow) (literal_at a grow) }
    ensures uris { (a : Align) → SpelledIsRead a (SpellsUri a) (uri_at a) }
    ensures locals { (a : Align) (uri : ℕ) → SpelledIsRead a (SpellsLocal a uri) (local_at a uri) }
    ensures names { (keep : Bool) (a : Align) → SpelledIsRead a (SpellsName keep a) (name_at keep a) }
    ensures known { (keep : Bool) (a : Align) (id : NameId) → SpelledIsRead a (SpellsKnown keep a id) (known_at keep a id) }
    ensures name_values { (keep : Bool) (a : Align) → SpelledIsRead a (SpellsNameValue keep a) (name_value_at keep a) }
    ensures declarations { (a : Align) → SpelledIsRead a (SpellsDeclaration a) (declaration_at a) }
    ensures values { (set : Option (List ℕ)) (a : Align) (name : NameId) → SpelledIsRead a (SpellsValue set a name) (value_at set a name) }
{}

/// No spelling is a proper prefix of another, and each spells one value.
pub fn none_is_prefix()
    ensures literals { (a : Align) (grow : Growth) → NoneIsPrefix (SpellsLiteral a grow) }
    ensures uris { (a : Align) → NoneIsPrefix (SpellsUri a) }
    ensures locals { (a : Align) (uri : ℕ) → NoneIsPrefix (SpellsLocal a uri) }
    ensures names { (keep : Bool) (a : Align) → NoneIsPrefix (SpellsName keep a) }
    ensures known { (keep : Bool) (a : Align) (id : NameId) → NoneIsPrefix (SpellsKnown keep a id) }
    ensures name_values { (keep : Bool) (a : Align) → NoneIsPrefix (SpellsNameValue keep a) }
    ensures declarations { (a : Align) → NoneIsPrefix (SpellsDeclaration a) }
    ensures values { (set : Option (List ℕ)) (a : Align) (name : NameId) → NoneIsPrefix (SpellsValue set a name) }
{}

/// Reading goes onward in the same bytes. It charges text and nothing else, within its limit, and each place
/// of the URIs, local names and prefixes keeps its text, where what is added keeps it.
pub fn reading_goes_on()
    ensures literals { (a : Align) (grow : Growth) → KeepsEach grow → ReadsOn (literal_at a grow) }
    ensures uris { (a : Align) → ReadsOn (uri_at a) }
    ensures locals { (a : Align) (uri : ℕ) → ReadsOn (local_at a uri) }
    ensures names { (keep : Bool) (a : Align) → ReadsOn (name_at keep a) }
    ensures known { (keep : Bool) (a : Align) (id : NameId) → ReadsOn (known_at keep a id) }
    ensures name_values { (keep : Bool) (a : Align) → ReadsOn (name_value_at keep a) }
    ensures declarations { (a : Align) → ReadsOn (declaration_at a) }
    ensures values { (set : Option (List ℕ)) (a : Align) (name : NameId) → ReadsOn (value_at set a name) }
{}

/// No limit that was kept is passed by reading, whether it ends with a fault or not.
pub fn limits_are_kept()
    ensures literals { (a : Align) (grow : Growth) → StaysWithin (literal_at a grow) }
    ensures uris { (a : Align) → StaysWithin (uri_at a) }
    ensures locals { (a : Align) (uri : ℕ) → StaysWithin (local_at a uri) }
    ensures names { (keep : Bool) (a : Align) → StaysWithin (name_at keep a) }
    ensures known { (keep : Bool) (a : Align) (id : NameId) → StaysWithin (known_at keep a id) }
    ensures name_values { (keep : Bool) (a : Align) → StaysWithin (name_value_at keep a) }
    ensures declarations { (a : Align) → StaysWithin (declaration_at a) }
    ensures values { (set : Option (List ℕ)) (a : Align) (name : NameId) → StaysWithin (value_at set a name) }
{}

/// The URI and the local name of a name that was read stand in the tables, and it goes on as the least places
/// that have them. They are still the least where reading has gone on.
pub fn names_stand()
    ensures stand { NamesStand }
    ensures kept { NamesGoOnStanding }
{}

/// Each reading charges a list of texts, whatever the meter is, and goes on without the meter.
pub fn readings_are_metered()
    ensures law { ReadingsAreMetered }
{}

/// Where reading fails, what stands before is spelled and the next thing is refused, by its kind and at its first
/// bit; and what is refused so is the fault of the reading.
pub fn readings_are_refused()
    ensures law { ReadingsAreRefused }
{}

/// What is written is one of the spellings, and leaves the tables that its reading leaves.
pub fn written_is_spelled()
    ensures literal { LiteralIsWritten }
    ensures uri { UriIsWritten }
    ensures local { LocalIsWritten }
    ensures string { StringIsWritten }
    ensures name { NameIsWritten }
    ensures prefix { PrefixIsWritten }
    ensures declaration { DeclarationIsWritten }
{}

/// What is written is read back, whatever follows, and reading leaves the tables that writing left.
pub fn written_is_read()
    ensures law { WrittenIsRead }
{}
