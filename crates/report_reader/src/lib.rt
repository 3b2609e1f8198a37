//! The report read back: a section's text gives the section, and any other text the number of the first line that breaks it.
//!
//! Bounds are in millimetres, or in whatever unit the signal or variable has, and times in ticks.
#![tactic(auto)]

pub mod laws;
mod lines;
pub mod read;
pub mod section;
pub mod words;

pub use read::read_section;
pub use section::{Line, Lines, Section, SectionFault};
pub use words::cut;
