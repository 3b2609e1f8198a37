//! The marks of a contractor's parts: a part is marked where the box may not be stable under it.
//!
//! Who keeps a contractor in a network keeps its marks beside it. They are all set where it is added; a firing visits the marked parts and
//! clears the marks; and each cell that became narrower marks the parts that read it, of the contractor that was fired as of all others.
#![tactic(auto)]

mod laws;
mod marks;
mod waking;

pub use laws::marks_law;
pub use marks::PartMarks;
pub use waking::wake_touched;
