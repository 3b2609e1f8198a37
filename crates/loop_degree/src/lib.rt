//! Cells of the plane of tick pairs, labels of the boundary of a list of cells, and the discrete degree: a degree that is not 0 proves
//! that a trajectory comes back.
//!
//! A pair of ticks `(a, b)` is a point of a plane. A unit cell has the corners
//!
//! ```text
//!   b
//!   |   (a, b + 1) <-- (a + 1, b + 1)
//!   |       |                ^
//!   |       v                |
//!   |     (a, b)  -->   (a + 1, b)
//!   +------------------------------- a
//! ```
//!
//! A corner of the boundary has a label that says in which direction the trajectory has surely gone away between its two ticks. Where the
//! labels turn round the origin along the boundary, the trajectory must pass by the origin inside. It is a discrete relative of the
//! topological degree test of loops of S. Rohou, P. Franek, C. Aubry and L. Jaulin, "Proving the existence of loops in robot trajectories",
//! 2018; here the positions are whole numbers at whole ticks, and no derivative is asked for.
#![tactic(auto)]

mod cells;
mod check;
mod labels;
mod laws;

pub use cells::{boundary_corners, is_rising};
pub use check::check_cells;
pub use labels::Label;
pub use laws::degree_law;
