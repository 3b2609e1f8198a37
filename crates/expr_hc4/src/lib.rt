//! Relations between expressions as contractors: forward and backward narrowing by a formula.
//!
//! A relation is bound to a store's signals and variables, at a gate, at an envelope, or once. It is kept as a flat program, the list of
//! its nodes with operands before operators. A firing goes up the list, which gives each node its interval value, and down again, which
//! gives each node its target: what the relation leaves of it. Each name then has one projection, its cell within its target.
//!
//! This is the contractor HC4-revise (Benhamou, Goualard, Granvilliers and Puget, "Revising hull and box consistency", 1999), here exact
//! over the whole numbers, operator by operator.
#![tactic(auto)]

mod contractor;
mod flat;
mod laws;
mod nodes;
mod passes;
mod places;

pub use contractor::ExprCtc;
pub use flat::Flat;
pub use laws::expr_law;
pub use places::Place;
pub use tube_names::Leaf;
