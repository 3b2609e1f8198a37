//! The mission log: a text of records, read into a mission.
//!
//! A log is a list of records, one a line, as `csv` defines them. Its first record that is no note is `mission,V,T,w`: version 1 or 2,
//! a clock of the ticks 0 to T, in slices of w ticks. The records after it declare signals, variables and beacons and say what holds of
//! them; `docs/LOG.md` has each kind with an example, the limits, and the causes for which a log is refused.
//!
//! `specs/Log.antt` says what a log is: the steps of each kind, in the order of the causes, and the mission that they make.
#![tactic(auto)]

mod clock;
mod declaring;
mod fault;
mod formulas;
pub mod laws;
mod meant;
mod ping;
mod points;
mod questions;
mod read;
mod signals;
mod take;

pub use fault::LogFault;
pub use log_fields::Cause;
pub use mission_items::{Decl, Item, Items, Mission};
pub use read::read_log;
