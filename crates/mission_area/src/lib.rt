//! What a mission's records ask about the area that was seen: for each query a chart of the plane over the box of a section, in which each
//! point of a lattice is marked as seen by every trajectory that is consistent with the records, as seen by none, or as open.
//!
//! A box that encloses the records loses no such trajectory, so what is marked holds of each of them, and none sees a place outside the window.
#![tactic(auto)]

mod charting;
mod laws;
mod writing;

pub use charting::find_area;
pub use laws::areas_law;
pub use writing::write_areas;
