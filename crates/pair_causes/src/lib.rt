//! Why two logs and the ranges measured between their robots are not joined, and what each range says where they can be.
//!
//! A cause is a sentence about the two missions and the form: it holds at a place or not at all, and the cause with the lowest number is
//! told. `specs/Sentences.antt` has the sentences, a definition a cause.
#![tactic(auto)]

mod cause;
mod heads;
mod judging;
pub mod laws;
mod link;
mod log;
mod read;
mod records;

pub use cause::{PairCause, PairFault};
pub use judging::judge;
pub use link::Linked;
pub use read::{Pair, read_both};

#[cfg(test)]
mod tests;
