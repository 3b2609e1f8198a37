//! What the definitions of the report say. Each function does nothing, and its contract is the law.

ghost use Rattle.tube_report.specs.Laws.{RangeIsLeast, SmallBrief, SmallSection};

/// The two bounds of a signal in brief are the least lower and the greatest upper bound over its cells.
pub fn brief_law()
    ensures { RangeIsLeast }
{}

/// The section of a small mission, in full and in brief.
pub fn section_example()
    ensures full { SmallSection }
    ensures brief { SmallBrief }
{}
