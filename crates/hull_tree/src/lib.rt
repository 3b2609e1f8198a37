//! Hulls over ranges of ticks, and what they say of pairs of ticks.
//!
//! A revisit is a pair of ticks `(a, b)` at which a vehicle stands nearly at the same place. What two signals may be at each tick, and
//! a query that says how near and how far apart in time, make a plane of pairs, of which some are possible. A box of pairs, `a` in one
//! range of ticks and `b` in another, is judged at once by the least and the greatest of both bounds over both ranges:
//!
//! ```text
//!   b |            Within: each pair of the box is possible
//!     |  +-----+   Out:    none is
//!     |  |     |   Mixed:  not known, and the box has more pairs than one
//!     |  +-----+
//!     +---------- a
//! ```
//!
//! The plane of pairs of ticks, its possible part and its paving by boxes are those of Aubry, Desmare, Jaulin, "Loop detection of mobile
//! robots using interval analysis" (2013), and Rohou, Franek, Aubry, Jaulin, "Proving the existence of loops in robot trajectories"
//! (2018); here over whole ticks. The hulls are kept in a tree over ranges of ticks.
#![tactic(auto)]

mod hulls;
mod laws;
mod pair;
mod ranges;
mod ticks;
mod tree;

pub use laws::{possible_law, sure_law};
pub use pair::{PairSays, pair_of};
pub use ticks::ticks_of;
pub use tree::{HullTree, Judged};
pub use tube_names::{Norm, Query, is_near};
