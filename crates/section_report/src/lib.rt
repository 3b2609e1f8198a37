//! The report of a mission, section by section: each section's records are built onto the network, which is settled from the box that it
//! has, and the text of the section is written. What is added later gives what a fresh run of all records so far gives.
#![tactic(auto)]

pub mod laws;
mod part;
mod report;

pub use part::{Choices, LastSection, verdict_of};
pub use report::write_sections;
