//! What holds of a reader beside workers. Each law is a function that does nothing: what it ensures is the law.

ghost use Rattle.exi_stitch.specs.Moves.{ReaderIsSequential};
ghost use Rattle.exi_stitch.specs.Stitches.{StitchedIsSequential, StitchesGiveFronts};

/// However workers and reader move, the reader stands where sequential processing comes to, and gave a front of its
/// events; once it has ended, its events and its end are those of sequential processing.
pub fn reader_is_sequential()
    ensures law { ReaderIsSequential }
{}

/// A reader that takes in what came of fragments read elsewhere, where that fits, gives a front of the events of sequential
/// processing.
pub fn stitches_give_fronts()
    ensures law { StitchesGiveFronts }
{}

/// Once it has ended, it gave the events of sequential processing and has its end, and made no more turns.
pub fn stitched_is_sequential()
    ensures law { StitchedIsSequential }
{}
