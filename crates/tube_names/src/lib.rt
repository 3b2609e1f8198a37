//! The names of what is in a store, as records and contractors call it: the leaves of a formula, the points of a plane, and which pairs of ticks
//! a query asks for.
//!
//! A point is a list of variables, one a coordinate, each with a cell of its own in a store. Contractors of distances and of marks speak of
//! points so.
#![tactic(auto)]

mod laws;
mod leaves;
mod queries;

pub use laws::cells_law;
pub use leaves::{Leaf, first_uses, same_leaf, stands_in};
pub use queries::{Norm, Query, is_near};
