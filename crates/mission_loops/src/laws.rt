//! What is told of loops is true of every trajectory. The function does nothing, and its contract is the law.

ghost use Rattle.mission_loops.specs.Laws.{LoopsLaw, SpansLaw};

/// What is told of a query over a box that encloses the records: each revisit of each trajectory that is consistent with them is in one
/// of the sets, and where something is found of a set, each such trajectory has a revisit in it.
pub fn loops_law()
    ensures { LoopsLaw }
{}

/// Each revisit of each trajectory that is consistent with the records has its ticks in the spans that are printed of one of the sets, also
/// in brief.
pub fn spans_law()
    ensures { SpansLaw }
{}
