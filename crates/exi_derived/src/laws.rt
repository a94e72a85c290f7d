//! What holds of lists that can be written. Each law is a function that does nothing: what it ensures is the law.

ghost use Rattle.exi_derived.specs.Laws.{BitsRefuseTheSame, BitsWriteAgain, DerivedIsWritten, DerivedOrUnmatched, FrontIsMatched, LimitedGoesOn, NeverBoth, OneUnmatched, RefusedDerivesNot, RefusedIsNumbered, RefusedIsUnmatched, RefusedWhateverFollows, UnmatchedIsRefused, WiderWritesTheSame, WrittenDerives, WrittenExactly};

/// A list that is written as a body, behind any bits and within any limits, is one that can be written.
pub fn written_derives()
    ensures law { WrittenDerives }
{}

/// A list that is refused since no production stands for an event can not be written, whatever the limits, and that event is
/// the first of the list for which none stands.
pub fn refused_derives_not()
    ensures derives { RefusedDerivesNot }
    ensures unmatched { RefusedIsUnmatched }
{}

/// An event that is the first for which no production stands is refused behind any bits and within any limits, but where
/// a limit is passed no later: nothing is written, and no other event is refused so.
pub fn unmatched_is_refused()
    ensures law { UnmatchedIsRefused }
{}

/// A list that can be written is written behind any bits and within any limits, but where a limit is passed.
pub fn derived_is_written()
    ensures law { DerivedIsWritten }
    ensures exactly { WrittenExactly }
{}

/// Each list can be written, or has a first event for which no production stands, and not both; and that event is one alone.
pub fn derived_or_unmatched()
    ensures either { DerivedOrUnmatched }
    ensures never_both { NeverBoth }
    ensures one { OneUnmatched }
{}

/// The event that is refused is one of the list; or, where no limit is passed, its number may be the one behind the last.
pub fn refused_is_numbered()
    ensures law { RefusedIsNumbered }
{}

/// The events before the one that is refused, be it for want of a production or by a limit, can be written so far: for each
/// of them a production stands. And that event is refused whatever follows it.
pub fn fronts_are_matched()
    ensures matched { FrontIsMatched }
    ensures follows { RefusedWhateverFollows }
{}

/// Within the same limits the bits in front change nothing: a list is written behind all of them, or refused behind all of
/// them at the same event and for the same reason.
pub fn bits_change_nothing()
    ensures written { BitsWriteAgain }
    ensures refused { BitsRefuseTheSame }
{}

/// Where a limit is passed, there are wider ones under which none is: by them the list is written, or the first event for
/// which no production stands comes no earlier.
pub fn limited_goes_on()
    ensures law { LimitedGoesOn }
{}

/// What is written is the same under wider limits: the bits, and the events that are read of them.
pub fn wider_writes_the_same()
    ensures law { WiderWritesTheSame }
{}
