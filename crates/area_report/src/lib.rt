//! What a run writes of the area that a query's sensor saw: the lattice, how many of its points have each mark, and the marks row by row.
//!
//! Lines end with byte 10, words are parted by one space, and numbers are decimal. Coordinates are in millimetres. No call takes memory.
#![tactic(auto)]

pub mod coverage;
mod marks;
pub mod query;
mod rows;

pub use coverage::Coverage;
pub use query::write_area;
