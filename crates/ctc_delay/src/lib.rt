//! The contractors of a delay: one signal is at each tick what another was some ticks before, where a variable says how many.
//!
//! For a variable `tau` of some number `d` of ticks from 0 to the last tick `T`, `y(k) = x(k - d)` at each tick `k` from `d` to `T`:
//!
//! ```text
//!       0               T - d
//!   x   |-----------------|
//!        \                 \
//!   y      |-----------------|
//!          d                 T     ticks
//! ```
//!
//! - [`DelayTo`]: forward, the cells of `y` from the cells of `x`;
//! - [`DelayFrom`]: backward, the cells of `x` from the cells of `y`;
//! - [`DelayShift`]: the variable, from both.
//!
//! A delay between two tubes is a constraint of Codac (S. Rohou, Reliable robot localization: a constraint programming approach over
//! dynamical systems, 2017), here over whole ticks.
#![tactic(auto)]

mod delays;
mod from;
mod held;
mod laws;
mod places;
mod possible;
mod shift;
mod to;
mod windows;

pub use from::DelayFrom;
pub use laws::{delay_from_law, delay_shift_law, delay_to_law};
pub use shift::DelayShift;
pub use to::DelayTo;
