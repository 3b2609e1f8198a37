//! What taking contractors out of a network does to its greatest common fixpoint: which cells it can move, and that every other cell stays.
//!
//! Let a box be the greatest common fixpoint of contractors below a start, and some of them be withdrawn. The cells that are *linked* to these are
//! their own, and with one cell of a contractor that is left all its cells. Each linked cell is reset to its starting interval, and every other
//! cell stays: below the box after this reset lies every common fixpoint of the contractors left. So settling these goes on from there, and
//! ends at the box that it would end at from the start.
//!
//! The crate has definitions and laws, and nothing that runs: each function does nothing, and its contract is a law.
#![tactic(auto)]

mod laws;

pub use laws::{join_law, linked_law, reset_law, resting_law, withdrawal_law};
