//! The text of a bundle read back: what it says, or that it is no bundle's text.
//!
//! A reader takes the front of its bytes and gives back what follows. Memory is taken for what is read alone.
#![tactic(auto)]

pub mod fault;
mod lines;
mod many;
mod queries;
pub mod read;
mod sections;
mod sets;
mod words;

pub use fault::BundleFault;
pub use read::read_bundle;
