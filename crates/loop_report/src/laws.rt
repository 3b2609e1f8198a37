//! What the definitions of the text say. Each function does nothing, and its contract is the law.

ghost use Rattle.loop_report.specs.Laws.{PrintedTicksAreEnds};

/// The ticks in the line of a set are the least and the greatest of its pairs.
pub fn printed_ticks_are_ends()
    ensures { PrintedTicksAreEnds }
{}
