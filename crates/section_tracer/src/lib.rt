//! The sections of a mission, traced: each is settled by rounds of firings, and written with the list of those that narrowed its box.
//!
//! Whoever has the mission and the list can fire the same contractors on a net of their own. The lists are enough for the boxes: every common
//! fixpoint of the listed contractors, below the box at which a section starts, lies below its box.
#![tactic(auto)]

pub mod laws;
mod part;
mod sections;

pub use part::MOST_FIRINGS;
pub use section_report::LastSection;
pub use sections::trace_sections;
