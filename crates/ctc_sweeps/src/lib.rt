//! All slices of a signal, and of a signal and its rate, each as one contractor made of parts.
//!
//! - [`SliceSweep`]: part `i` is the slice contractor of slice `i` of a signal.
//! - [`DerivSweep`]: part `i` is the derivative contractor of slice `i` of a signal and its rate.
//!
//! Their projections are those of the slices one after another, so a box is a fixpoint of a sweep exactly where it is one of each slice.
//! A firing goes upwards and then back down: what one gate gains goes through all slices in one firing.
//!
//! ```text
//!        slice 0     slice 1     slice 2     slice 3
//!      |-----------|-----------|-----------|-----------|
//!   gate 0      gate 1      gate 2      gate 3      gate 4     each gate is read by the slices on both of its sides
//! ```
#![tactic(auto)]

mod deriv_sweep;
mod laws;
mod slice_sweep;

pub use deriv_sweep::DerivSweep;
pub use laws::{deriv_sweep_law, slice_sweep_law};
pub use slice_sweep::SliceSweep;
