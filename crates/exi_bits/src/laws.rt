//! What is spelled and what is read are the same. Each law is a function that does nothing: what it
//! ensures are the laws.

ghost use Rattle.exi_bits.specs.Laws.{NumberIsSpelled, NumberIsRead, NumberIsNoPrefix, NumberIsReadBack, BelowIsSpelled, BelowIsRead, UnsignedIsSpelled, UnsignedIsRead, UnsignedIsNoPrefix, ShortestIsSpelled, NoneIsShorter, UnsignedIsReadBack, ShortIsCut, TooWideIsWide, WidthIsLeast};

/// What is read is spelled so.
pub fn read_is_spelled()
    ensures number { NumberIsSpelled }
    ensures below { BelowIsSpelled }
    ensures unsigned { UnsignedIsSpelled }
{}

/// What is spelled so is read, whatever follows.
pub fn spelled_is_read()
    ensures number { NumberIsRead }
    ensures below { BelowIsRead }
    ensures unsigned { UnsignedIsRead }
{}

/// No spelling is a proper prefix of another, and each spells one number.
pub fn none_is_prefix()
    ensures number { NumberIsNoPrefix }
    ensures unsigned { UnsignedIsNoPrefix }
{}

/// What is written for an Unsigned Integer is one of its spellings.
pub fn written_is_spelled()
    ensures { ShortestIsSpelled }
{}

/// What `BitOut` adds, `BitIn` reads back, whatever follows.
pub fn written_is_read()
    ensures number { NumberIsReadBack }
    ensures unsigned { UnsignedIsReadBack }
{}

/// No spelling of an Unsigned Integer is shorter than what is written.
pub fn none_is_shorter()
    ensures { NoneIsShorter }
{}

/// Short comes exactly where the bits end first.
pub fn short_is_cut()
    ensures { ShortIsCut }
{}

/// TooWide comes exactly where the 19th octet has the top bit or brings the value to 2^128.
pub fn too_wide_is_wide()
    ensures { TooWideIsWide }
{}

/// The width of a count is the least that tells so many apart.
pub fn width_is_least()
    ensures { WidthIsLeast }
{}
