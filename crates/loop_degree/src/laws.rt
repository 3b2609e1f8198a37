//! A degree that is not 0 proves a revisit.

ghost use Rattle.loop_degree.specs.Degree.{DegreeLaw};

/// Does nothing. Its contract is the law of the degree: in a box that is not empty, for every query, all lists of rates and every strictly
/// rising list of cells of which all corners are valid pairs, and for all labels that hold at the corners of the boundary, a degree that
/// is not 0 proves for each trajectory in the box that has these rates a revisit at a corner of one of the cells. It asks that both step
/// bounds less one are near by the query's norm.
pub fn degree_law()
    ensures { DegreeLaw }
{}
