//! The contractor of a distance between two points, in two or three coordinates.
//!
//! [`DistCtc`] holds the points `P` and `B`, of one variable a coordinate, to a distance from `near` to `far`: the sum of the squares of
//! the differences `P_i - B_i` lies in `near * near..far * far`. In two coordinates the points at these distances of `B` are a ring:
//!
//! ```text
//!          . - - - .
//!       .     . .     .
//!     .    .       .    .       in each coordinate both sides are left,
//!     .   .    B    .   .       and with them what lies between
//!     .    .       .    .
//!       .     ' '     .
//!          ' - - - '
//! ```
//!
//! The contractor of a distance is that of Codac (Rohou, Jaulin and others); the idea of localising by ranges with intervals is that of
//! Jaulin, Kieffer, Didrit and Walter, "Applied Interval Analysis" (2001). Here it is exact over whole numbers, coordinate by coordinate.
#![tactic(auto)]

mod dist;
mod laws;
mod squares;

pub use dist::DistCtc;
pub use laws::dist_law;
