//! Disjoint sets of numbers: which numbers hang together, by pairs that are joined one after another.
//!
//! Each number has a parent that is not above it, and a number that is its own parent is the root of its tree. Two numbers hang together where
//! they are in one tree, so where they have one root. The forest is that of Galler and Fischer, "An improved equivalence algorithm" (1964).
//!
//! ```text
//!   numbers  0 1 2 3 4     0     1
//!   parents  0 1 0 2 1     |     |       {0, 2, 3} and {1, 4}
//!                          2     4
//!                          |
//!                          3
//! ```
#![tactic(auto)]

mod forest;

pub use forest::{alone, are_joined, find, join};
