//! The records of a mission log as data: what each says, declares, makes and takes, and what an accepted mission promises.
//!
//! A mission is a clock and a list of records. Signals, variables and beacons go by their numbers in order of declaration; names are
//! found by a search of the records before. Nothing here reads a text.
#![tactic(auto)]

pub mod decl;
pub mod item;
pub mod mission;
pub mod ticks;

pub use decl::Decl;
pub use item::{Item, Leaves};
pub use mission::{Items, Mission};
pub use ticks::ticks_from;
