//! Of all causes that a record has, the lowest is told. Each cause is a sentence about the fields of the record and the records before
//! it, kind by kind. The crate has definitions and a law, and nothing that runs.
#![tactic(auto)]

ghost use Rattle.log_causes.specs.Laws.{LowestIsTold, RecordsAreJudged};

/// Every record is judged by the sentences of the causes alone: where none holds of it, it is taken as the item that its fields say; else
/// it is refused, and the cause is the first in the order of their numbers of which the sentence holds.
///
/// Where a log is refused at a record, of no record before it a sentence holds, and of that record the one of the cause that is told, and
/// none of a lower cause.
pub fn lowest_is_told()
    ensures judged { RecordsAreJudged }
    ensures first { LowestIsTold }
{}
