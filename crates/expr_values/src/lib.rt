//! Expressions over intervals: values upward, from the intervals of the names to the whole, and targets downward, from the whole to the
//! names.
//!
//! Both passes are those of the contractor HC4-revise (Benhamou, Goualard, Granvilliers and Puget, "Revising hull and box consistency",
//! 1999), here exact over the whole numbers, operator by operator. Numbers have the unit of their names: millimetres, ticks, or products.
#![tactic(auto)]

mod comparisons;
mod laws;
mod operators;
mod terms;

pub use comparisons::{left_of, right_of};
pub use laws::expression_law;
pub use operators::{BinaryOp, UnaryOp};
pub use terms::range_of;
