//! What holds of sequential processing. Each law is a function that does nothing: what it ensures is
//! the law.

ghost use Rattle.exi_processing.specs.Fews.{FewAfterTurns};
ghost use Rattle.exi_processing.specs.Laws.{AFaultEnds, ARunIsThere, ASequenceIsThere, EndIs, EndsAtEd, FewTurns, IsFrontOfRun, LimitsAreKept, NeverBack, OneRun, OneSequence, OneStepOrOneFault};
ghost use Rattle.exi_processing.specs.Metered.{OneIsMetered, SpelledIsAsked};
ghost use Rattle.exi_processing.specs.Refused.{FaultIsRefused, OneSpelledOrOneFault, RefusedIsFault};
ghost use Rattle.exi_processing.specs.Spelled.{OneAtMost, OneIsSpelled, SpelledIsOne};
ghost use Rattle.exi_processing.specs.Shifts.{TooMuchStops};
ghost use Rattle.exi_processing.specs.Splices.{ScLeadsToFragment, SplicesAreRuns};
ghost use Rattle.exi_processing.specs.Sound.{CodesFit, FirstIsSound, ReachedAreSound, StepsKeepSound};

/// A configuration that has not ended has exactly one step or exactly one fault.
pub fn one_step_or_one_fault()
    ensures law { OneStepOrOneFault }
{}

/// A step never goes backwards.
pub fn never_back()
    ensures law { NeverBack }
{}

/// Each configuration has a run.
pub fn a_run_is_there()
    ensures law { ARunIsThere }
{}

/// A configuration has one run at most.
pub fn one_run()
    ensures law { OneRun }
{}

/// What was given so far is the front of what the run gives.
pub fn front_of_run()
    ensures law { IsFrontOfRun }
{}

/// A fault ends the run: the events are those before it.
pub fn a_fault_ends()
    ensures law { AFaultEnds }
{}

/// A body or a fragment has a list of events, an end and a number of turns.
pub fn a_sequence_is_there()
    ensures law { ASequenceIsThere }
{}

/// A body or a fragment has one list of events, one end and one number of turns at most.
pub fn one_sequence()
    ensures law { OneSequence }
{}

/// Reading takes at most one turn more than its limit of events, and three more for each fragment of a
/// self-contained element.
pub fn few_turns()
    ensures law { FewTurns }
{}

/// The first configuration is sound: no element is open, and nothing is learned.
pub fn first_is_sound()
    ensures law { FirstIsSound }
{}

/// A step leads from a sound configuration to a sound one: names go on as the least places of their
/// texts, an open element has the built-in grammar of its name or one of the schema, and each has its level.
pub fn steps_keep_sound()
    ensures law { StepsKeepSound }
{}

/// Each configuration that turns lead to from the first is sound.
pub fn reached_are_sound()
    ensures law { ReachedAreSound }
{}

/// What is read as one event is spelled so, and the next configuration stands in the same bytes.
pub fn one_is_spelled()
    ensures law { OneIsSpelled }
{}

/// One event that is spelled so is read, whatever the bytes are that have it.
pub fn spelled_is_one()
    ensures law { SpelledIsOne }
{}

/// At a place at most one event is spelled.
pub fn one_at_most()
    ensures law { OneAtMost }
{}

/// What a code tells in a sound configuration fits the state: a name only one that stands; attributes,
/// content and EE only in an element; SD and ED only outside of all, and DT in no element of a built-in grammar.
pub fn codes_fit()
    ensures law { CodesFit }
{}

/// The last event of a body is ED, behind which its end is done or a whole byte more is at fault; or
/// the end is a fault.
pub fn end_is()
    ensures law { EndIs }
{}

/// Reading of a body that does not fail ends with ED.
pub fn ends_at_ed()
    ensures law { EndsAtEd }
{}

/// Nothing that is charged passes its limit, wherever reading ends.
pub fn limits_are_kept()
    ensures law { LimitsAreKept }
{}

/// One event charges a list of dues, whatever the meter is, and goes on without the meter.
pub fn one_is_metered()
    ensures law { OneIsMetered }
{}

/// What is spelled is read wherever the meter takes its dues in turn; where it does not, the first due that
/// passes is the limit's fault, at the event's first bit.
pub fn spelled_is_asked()
    ensures law { SpelledIsAsked }
{}

/// A turn that gives SC, wherever turns led, leads to the fragment that it begins.
pub fn sc_leads_to_fragment()
    ensures law { ScLeadsToFragment }
{}

/// Where a fragment was read by itself, under any limits, and what it charged fits, a reader that stands
/// at it goes on as the splice says: behind the fragment, with the fragment's fault, or with that of
/// another root.
pub fn splices_are_runs()
    ensures law { SplicesAreRuns }
{}

/// Where what the fragment charged is too much, a reader that stands at it stops inside it by a limit; or at its
/// first element, by the root of another element or by the limit that the root's name passes.
pub fn too_much_stops()
    ensures law { TooMuchStops }
{}

/// After so many turns no list of the string tables has more than 2^30 texts, two for each turn and one for each unit of
/// text that was charged, and there are no more grammars than turns, each with no more learned productions in a state.
pub fn few_after_turns()
    ensures law { FewAfterTurns }
{}

/// A fault is refused so: what stands before it is spelled, and the fault has its kind, its bit and all
/// charges before.
pub fn fault_is_refused()
    ensures law { FaultIsRefused }
{}

/// What is refused so is the fault of the reading.
pub fn refused_is_fault()
    ensures law { RefusedIsFault }
{}

/// Exactly one event is spelled at a place, or exactly one fault is there.
pub fn one_spelled_or_one_fault()
    ensures law { OneSpelledOrOneFault }
{}
