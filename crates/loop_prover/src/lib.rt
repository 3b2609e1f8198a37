//! Sets of pairs of ticks that surely hold a revisit of a trajectory.
//!
//! For a list of cells of the plane of pairs, a store gives the step bounds of both signals and the labels of the corners of its boundary,
//! from which `loop_degree` makes the degree. See there for the published sources.
#![tactic(auto)]

mod bounds;
mod holds;
mod labels;
mod laws;

pub use bounds::{greatest_left, greatest_step, step_bound};
pub use holds::label_holds;
pub use labels::{label, labels_of};
pub use laws::labels_law;
pub use loop_degree::{Label, check_cells, degree_law};
