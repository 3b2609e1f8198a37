//! The contractor of an evaluation: a variable is the value of a signal at an uncertain tick.
//!
//! The constraint is `z = x(t)`: a time `t` and a value `z` are variables, and `x` is a signal. The time has a declared range, in which it
//! lies. [`EvalCtc`] narrows the value by what the signal may be at the ticks of the time, the time by where the signal meets the value,
//! and, where the time is at one boundary alone, the gate there by the value. Where the signal has a rate, each gate of the slices that
//! share a tick with the declared range of the time is narrowed too, by what the signal may come to there from each tick of the time.
//!
//! The evaluation of a tube at an uncertain time, and its use for measurements whose date is not known, is that of Rohou, Jaulin,
//! Mihaylova, Le Bars and Veres, Reliable Nonlinear State Estimation Involving Time Uncertainties (2018), here over whole ticks.
#![tactic(auto)]

mod block;
mod clock;
mod eval;
mod laws;
mod near;
mod readings;
mod sweep;

pub use eval::EvalCtc;
pub use laws::{declared_law, eval_law};
pub use slice_gates::{Near, near_in, near_law};
