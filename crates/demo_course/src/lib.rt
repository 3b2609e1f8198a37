//! The true course of a demo mission: what its seed draws, and the positions that follow.
//!
//! Lengths are whole millimetres and times whole ticks. Fifty words of a PCG32 generator draw the rates of twenty stretches of a hundred
//! ticks, and then the places of five beacons. The course starts at 0, and each tick adds its rate.
#![tactic(auto)]

mod course;
mod laws;
mod root;
#[cfg(test)]
mod tests;

pub use course::Course;
pub use laws::{courses_are_bounded, courses_are_moved, distances_are_whole, roots_are_greatest};
pub use root::whole_root;

/// The last tick of a course.
pub const LAST_TICK: u32 = 2000;

/// How many beacons there are.
pub const BEACONS: u32 = 5;

/// How many stretches have one rate each.
pub const STRETCHES: u32 = 20;

/// A coordinate of the plane.
#[derive(Clone, Copy, Debug, PartialEq, Eq)]
pub enum Axis {
    /// The first coordinate.
    X,
    /// The second coordinate.
    Y,
}
