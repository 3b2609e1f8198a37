//! What is told of a query's area.

use area_paver::Area;

/// What is told of the area that a query's sensor saw.
#[derive(Drop)]
pub enum Coverage {
    /// Nothing: the box is empty.
    Empty,
    /// That the lattice has more than 4,000,000 points.
    Crowded,
    /// The chart.
    Charted(Area),
}
