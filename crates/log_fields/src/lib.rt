//! The fields of the records of a mission log, kind by kind: what each record says by itself, before any
//! record around it is asked.
//!
//! A record's fields are trimmed of spaces and tabs, and read as names, references, numbers and ranges. Of
//! what is wrong with a record by itself the lowest cause is told: its version, the number of its fields,
//! its names and references, its numbers, and then their limits.
#![tactic(auto)]

pub mod clock;
pub mod declaring;
mod fault;
pub mod fields;
pub mod laws;
pub mod points;
pub mod signals;
pub mod texts;

pub use fault::{Cause, Stop};
pub use fields::Reference;
