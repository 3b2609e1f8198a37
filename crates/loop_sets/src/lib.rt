//! Which sets of possible pairs of ticks surely hold a revisit of a trajectory, whatever the trajectory is.
//!
//! A set is a component of the possible pairs. It is proved by one pair of it that is surely near, or by the degree of the boundary of its
//! cells. The cells are kept as runs, so that neither the memory nor the labels grow with the pairs, but with the runs and their sides.
#![tactic(auto)]

mod blocks;
mod bounds;
mod cells;
mod finding;
mod laws;
mod sure;
mod table;
mod tube;
mod turns;

pub use cells::set_cells;
pub use finding::{Finding, Prover};
pub use laws::{component_law, finding_law};
pub use loop_prover::{Label, check_cells, degree_law, label, labels_of, step_bound};
