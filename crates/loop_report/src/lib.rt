//! What a run writes of a query about loops: the sets of possible pairs of ticks, and what is found of each.
//!
//! Lines end with byte 10, words are parted by one space, and numbers are decimal. Pairs are of ticks. No call takes memory.
#![tactic(auto)]

pub mod found;
pub mod laws;
pub mod query;

pub use found::Found;
pub use loop_sets::Finding;
pub use query::write_loops;
