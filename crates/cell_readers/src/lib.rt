//! Who reads a cell: for each cell a list of the contractors that read it, by their numbers, the last added first.
//!
//! All lists stand in one table of entries. An entry has the number of a contractor and the place of the entry before it in its cell's
//! list, so that lists grow without being moved, and a walk falls from entry to entry and ends. After a firing [`wake_touched`] wakes
//! exactly those that read a cell that became narrower. The laws say what firings that wake so may cost: each lowers the potential of the
//! network by one at least.
#![tactic(auto)]

mod chain;
mod laws;
mod readers;
mod waking;

pub use chain::Chain;
pub use laws::{cost_law, fall_law, kept_law, step_law, wake_law};
pub use readers::Readers;
pub use waking::{wake_readers, wake_touched};
