//! The words of the command line, read by one simple command of `clap`, and the line that says which they are.
//!
//! The command is `codac_cli MODE [--budget N] [--order ORDER] [--brief] [--seed N] [--step N]`, with no help and no version flag.
#![tactic(auto)]

pub mod answer;
mod command;
#[cfg(test)]
mod tests;
pub mod usage;
pub mod words;
pub mod worked;

pub use answer::{Asked, Mode, OrderWord, read_words};
pub use usage::write_usage;
pub use words::Words;
