//! The records of a text of comma-separated fields, one at a time.
//!
//! The records are those that `csv` defines for the bytes, with a comma, a double quote and no header
//! row, where records may have different numbers of fields. A byte order mark at the start is no part
//! of the text, and an empty line is no record.
#![tactic(auto)]

pub mod laws;
pub mod rows;

pub use rows::Rows;

#[cfg(test)]
mod tests;
