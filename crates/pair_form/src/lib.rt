//! The form of a source of two logs, and of the ranges that were measured between their robots.
//!
//! It is `pair N1 N2`, the N1 bytes of the first log, the N2 bytes of the second one, `offset LO HI`, any number of lines
//! `link K NEAR FAR X Y X Y`, and `end`. Each of these parts is ended by byte 10, and nothing follows the last one. Words are parted
//! by one space. Numbers are spelled as in a log.
#![tactic(auto)]

pub mod form;
pub mod laws;
mod lines;
pub mod read;
mod words;

pub use form::{Link, PairForm, PairFormFault, Place};
pub use read::read_pair;

#[cfg(test)]
mod tests;
