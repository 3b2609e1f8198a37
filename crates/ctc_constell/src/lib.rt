//! The contractor of a point that is one of several marks, in two or three coordinates: a landmark seen, but not known which.
//!
//! [`ConstellCtc`] holds each coordinate of the point by the hull, over the marks whose box meets the point's box, of the meeting of both
//! in that coordinate. So a mark that cannot be the one leaves nothing, and all that can be count together:
//!
//! ```text
//!    +----------------- point ---+
//!    |   +-+            +-+      |    +-+
//!    |   |1|            |2|      |    |3|     marks 1 and 2 are left, and the hull of both
//!    |   +-+            +-+      |    +-+
//!    +---------------------------+
//! ```
//!
//! The contractor of a constellation is that of Rohou, Desrochers and Le Bars, "Set-membership State Estimation by Solving Data
//! Association" (2020), as Codac has it. Here it is exact over whole numbers, mark by mark.
#![tactic(auto)]

mod boxes;
mod constell;
mod laws;

pub use constell::ConstellCtc;
pub use laws::constell_law;
