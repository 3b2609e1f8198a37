//! What is told of areas is true of every trajectory. The function does nothing, and its contract is the law.

ghost use Rattle.mission_area.specs.Laws.{AreasLaw};

/// What is told of the area of a query over a box that encloses the records: each trajectory that is consistent with them sees every point
/// that is marked as seen, none that is marked as never seen, and no place outside the window.
pub fn areas_law()
    ensures { AreasLaw }
{}
