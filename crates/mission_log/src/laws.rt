//! What is true of every log.

ghost use Rattle.mission_log.specs.Laws.{FirstIsTold, RefusalStands};

/// A log that is refused at a record is refused for the same record and the same cause whatever records
/// follow, as long as the log is not longer than the longest one.
pub fn refusal_stands()
    ensures { RefusalStands }
{}

/// Where a log is refused at a record, no record before it has a cause: they make a mission. The record has the cause that is told
/// after them, and it is the first in the order of the causes that the record's kind goes through.
pub fn first_is_told()
    ensures { FirstIsTold }
{}
