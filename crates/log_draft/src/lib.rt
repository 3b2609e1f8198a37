//! The draft of a mission, which grows record by record while a log is read.
//!
//! A draft is seen as the mission so far. It finds what names stand for and what a record takes without going over the records again:
//! beside them it keeps the table of the names, the marks of the clock, running counts, and which signals have a rate. What is added has
//! to be right after the records before; so a draft with a mission record is a mission at any time.
//!
//! `specs/Names.antt` and `specs/Room.antt` say what is found, by a search of the records; `specs/Growing.antt` says what is added.
#![tactic(auto)]

mod counts;
mod draft;

pub use counts::Counts;
pub use draft::Draft;
