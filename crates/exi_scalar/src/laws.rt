//! What is spelled and what is read are the same. Each law is a function that does nothing: what it
//! ensures are the laws.

ghost use Rattle.exi_items.specs.Laws.{NoneIsPrefix, ReadIsSpelled, SpelledIsRead};
ghost use Rattle.exi_scalar.specs.Asked.{BinaryIsAsked, BooleanIsAsked, DecimalIsAsked, FloatIsAsked, IntegerIsAsked};
ghost use Rattle.exi_scalar.specs.Laws.{BinaryIsNoPrefix, BinaryIsRead, BinaryIsSpelled, BooleanIsWritten, DecimalIsWritten, FloatIsWritten, BinaryIsWritten, IntegerIsWritten};
ghost use Rattle.exi_scalar.specs.Scalars.{boolean_at, decimal_at, float_at, integer_at};
ghost use Rattle.exi_scalar.specs.Spelled.{SpellsBoolean, SpellsDecimal, SpellsFloat, SpellsInteger};
ghost use Rattle.std.specs.Prelude.{Bool};

/// What is read is spelled so.
pub fn read_is_spelled()
    ensures boolean { (pattern : Bool) → ReadIsSpelled (SpellsBoolean pattern) (boolean_at pattern) }
    ensures integer { ReadIsSpelled SpellsInteger integer_at }
    ensures decimal { ReadIsSpelled SpellsDecimal decimal_at }
    ensures float { ReadIsSpelled SpellsFloat float_at }
    ensures binary { BinaryIsSpelled }
{}

/// What is spelled so is read, whatever follows.
pub fn spelled_is_read()
    ensures boolean { (pattern : Bool) → SpelledIsRead (SpellsBoolean pattern) (boolean_at pattern) }
    ensures integer { SpelledIsRead SpellsInteger integer_at }
    ensures decimal { SpelledIsRead SpellsDecimal decimal_at }
    ensures float { SpelledIsRead SpellsFloat float_at }
    ensures binary { BinaryIsRead }
{}

/// No spelling is a proper prefix of another of the same datatype, and each spells one value.
pub fn none_is_prefix()
    ensures boolean { (pattern : Bool) → NoneIsPrefix (SpellsBoolean pattern) }
    ensures integer { NoneIsPrefix SpellsInteger }
    ensures decimal { NoneIsPrefix SpellsDecimal }
    ensures float { NoneIsPrefix SpellsFloat }
    ensures binary { BinaryIsNoPrefix }
{}

/// What is written is one of the spellings.
pub fn written_is_spelled()
    ensures boolean { BooleanIsWritten }
    ensures integer { IntegerIsWritten }
    ensures decimal { DecimalIsWritten }
    ensures float { FloatIsWritten }
    ensures binary { BinaryIsWritten }
{}

/// What the writers ask of a value is that its datatype has it, as one definition says it for all datatypes.
pub fn form_is_asked()
    ensures boolean { BooleanIsAsked }
    ensures integer { IntegerIsAsked }
    ensures decimal { DecimalIsAsked }
    ensures float { FloatIsAsked }
    ensures binary { BinaryIsAsked }
{}
