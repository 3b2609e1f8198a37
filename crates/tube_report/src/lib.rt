//! The report: what a run writes of each section of a mission, and of a refused log.
//!
//! Lines end with byte 10, words are parted by one space, and numbers are decimal. Bounds are in
//! millimetres, or in whatever unit the signal or variable has, and times in ticks. Only the list of declared
//! names, which is made once for all sections, takes memory.
#![tactic(auto)]

pub mod laws;
pub mod listed;
pub mod refusal;
pub mod section;
pub mod tube;

pub use listed::{Place, Places};
pub use refusal::write_fault;
pub use section::{Verdict, write_section};
