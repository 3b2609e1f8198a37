//! What a mission's records ask about loops: the sets of pairs of ticks at which the robot may have come back, and which of these surely
//! hold a return, over the box of a section.
//!
//! The sets of a query are the components of its possible pairs. A box that encloses the records loses no return of any trajectory that is
//! consistent with them, and where something is found of a set, each such trajectory has a return in it.
#![tactic(auto)]

mod finding;
mod laws;
mod records;
mod sets;
mod writing;

pub use finding::find_loops;
pub use laws::loops_law;
pub use sets::FoundSets;
pub use writing::{Findings, write_findings};
