//! The law that each section which a run prints of an accepted mission is read back as what it was.
#![tactic(auto)]

pub mod laws;

pub use laws::sections_are_read;
