//! What settling makes of a net of records. The function does nothing, and its contract is the law.

ghost use Rattle.mission_net.specs.Laws.{StartedLaw, SettledLaw, EnclosingLaw};

/// A section, however it was settled: a box that lost no common fixpoint of the records before, with the new cells at their declared
/// ranges, lost none of the records so far. Settled from there, it is the section of these records, or was spent with its cause. And
/// the box of a section of a mission's first records encloses every trajectory that is consistent with them.
pub fn settled_section_law()
    ensures starts { StartedLaw }
    ensures settled { SettledLaw }
    ensures encloses { EnclosingLaw }
{}
