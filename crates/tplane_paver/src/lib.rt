//! Paves the plane of pairs of ticks: which pairs of a query are possible, and how they hang together.
//!
//! The possible pairs are kept as maximal runs of one `a` and neighbouring `b`:
//!
//! ```text
//!   b |   ##        a run `(a, first, last)` holds the pairs (a, first) to (a, last)
//!     |  ####  #
//!     |  ##   ##    two components: here four runs of the one, and two of the other
//!     +---------- a
//! ```
//!
//! [`pave`] goes by quartering: a square of pairs that is judged to hold no possible pair, or none else, is done, and any other is cut
//! into four. This is the subpaving of a set by a test on boxes (Jaulin, Kieffer, Didrit, Walter, "Applied Interval Analysis", 2001), and
//! loops are looked for so by Aubry, Desmare, Jaulin, "Loop detection of mobile robots using interval analysis" (2013).
#![tactic(auto)]

mod classes;
mod paving;
mod rows;
mod runs;
mod sweep;

pub use classes::{Component, components};
pub use paving::{PaveFault, pave};
pub use runs::{Run, Runs};
