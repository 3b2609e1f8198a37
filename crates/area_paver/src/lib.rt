//! The area that a sensor along a trajectory has seen: a chart of the plane in which each point of a lattice is marked as surely seen,
//! as never seen, or as open.
//!
//! A sensor sees a place from a tick where the trajectory is near it at that tick. What is known of the trajectory are its tubes, so at a
//! tick the places that some position of the tubes sees lie round those that every position sees:
//!
//! ```text
//!      . . ? ? ? ? . .
//!      . ? ? # # ? ? .      #  every position of the tubes is near
//!      . ? ? # # ? ? .      ?  some positions are
//!      . . ? ? ? ? . .      .  none is
//! ```
//!
//! A point is seen where it is `#` at some tick, and never seen where it is `.` at all ticks. The area that a robot has explored, from
//! below and from above, is that of Desrochers, Jaulin, "Computing a guaranteed approximation of the zone explored by a robot" (2017);
//! here over whole ticks, and for the points of a lattice.
#![tactic(auto)]

mod axis;
mod chart;
mod laws;
mod line;
mod paver;
mod runs;
mod sensor;
mod tube;

pub use chart::{Area, AreaFault, Mark};
pub use laws::{area_law, lattice_law, mark_law};
pub use paver::{MOST_POINTS, area};
