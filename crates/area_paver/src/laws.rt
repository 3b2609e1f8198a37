//! What marks, windows and lattices say.

ghost use Rattle.area_paver.specs.Laws.{AreaLaw, LatticeLaw, MarkLaw};

/// Does nothing. Its contract is what a chart is good for: each trajectory in the box sees the points that are marked as seen, none of
/// those that are marked as never seen, and no place outside the window.
pub fn area_law()
    ensures { AreaLaw }
{}

/// Does nothing. Its contract: the columns and the rows of a chart are the multiples of the step in the window.
pub fn lattice_law()
    ensures { LatticeLaw }
{}

/// Does nothing. Its contract: a place has one mark, so a chart has the mark of each point and no other.
pub fn mark_law()
    ensures { MarkLaw }
{}
