//! What is spelled and what is read are the same, under every datatype. Each law is a function that does nothing: what it
//! ensures is the law.
//!
//! The first three speak of a value under the same string tables. The others say what each reading keeps.

ghost use Rattle.exi_values.specs.Growths.{GrowthIsCharged};
ghost use Rattle.exi_values.specs.Promises.{
  NoValueIsPrefix,
  ValuesAreMetered,
  ValuesAreRead,
  ValuesAreSpelled,
  ValuesGoOn,
  ValuesStayWithin,
};
ghost use Rattle.exi_values.specs.Refused.{ValuesAreRefused};
ghost use Rattle.exi_values.specs.Valued.{ReadsTabled};
ghost use Rattle.exi_values.specs.WrittenLaws.{ValuesAreReadBack, ValuesAreWritten};

/// What is read is spelled so, the tables go on as the spelling says, and the meter took its charges in turn.
pub fn read_is_spelled()
    ensures law { ValuesAreSpelled }
{}

/// What is spelled so is read, whatever follows, wherever a meter takes the charges in turn; where it does not, the
/// first charge that passes the limit is the fault, at its bit.
pub fn spelled_is_read()
    ensures law { ValuesAreRead }
{}

/// No spelling is a proper prefix of another of the same datatype, and each spells one value.
pub fn none_is_prefix()
    ensures law { NoValueIsPrefix }
{}

/// Reading goes onward in the same bytes. It charges text and nothing else, within its limit, and each place
/// of the URIs, local names and prefixes keeps its text.
pub fn reading_goes_on()
    ensures law { ValuesGoOn }
{}

/// No limit that was kept is passed by reading, whether it ends with a fault or not.
pub fn limits_are_kept()
    ensures law { ValuesStayWithin }
{}

/// Each reading charges a list of texts, whatever the meter is, and goes on without the meter.
pub fn readings_are_metered()
    ensures law { ValuesAreMetered }
{}

/// Strings and names are read as they are where nothing else goes through the string tables.
pub fn tabled_are_read()
    ensures law { ReadsTabled }
{}

/// A list adds no more texts to a list of the string tables than it charges, and any value one more at most.
pub fn growth_is_charged()
    ensures law { GrowthIsCharged }
{}

/// What is written is one of the spellings, charges its units in turn, and leaves the tables that its reading leaves.
pub fn written_is_spelled()
    ensures law { ValuesAreWritten }
{}

/// What is written is read back, whatever follows, and reading leaves the tables that writing left.
pub fn written_is_read()
    ensures law { ValuesAreReadBack }
{}

/// Where reading fails, what stands before is spelled and the next thing is refused, by its kind and at its first
/// bit; and what is refused so is the fault of the reading.
pub fn readings_are_refused()
    ensures law { ValuesAreRefused }
{}
