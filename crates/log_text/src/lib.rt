//! The canonical text of a mission: one line for each record, without spaces, with the names that the records declare.
//!
//! Numbers have no `+` and no leading zeros, the text of a formula stands in double quotes, and a note is `#`. `specs/Texts.antt` says
//! what the text is, and `print_log` gives exactly it.
#![tactic(auto)]

mod clock;
mod declaring;
mod field;
pub mod laws;
mod line;
mod names;
mod points;
mod print;
mod questions;
mod signals;

pub use print::print_log;
