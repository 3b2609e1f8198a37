//! How the fields of a mission log are spelled: blanks at their ends, numbers, names, references and kinds.
#![tactic(auto)]

pub mod kind;
pub mod laws;
pub mod name;
pub mod number;
pub mod reference;
pub mod trim;

pub use kind::Kind;
pub use name::is_name;
pub use number::number_of;
pub use reference::{Part, bare_name, is_reference, part_of};
pub use trim::{is_note, trimmed};

#[cfg(test)]
mod tests;
