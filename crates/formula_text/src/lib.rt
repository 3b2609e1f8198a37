//! The formulas of a log: what their text says, as a function of its bytes, and a formula as a value.
//!
//! `reading_of` (`specs/Readings.antt`) gives for every text the relation that it is, or why it is none, and the laws tie it to the
//! grammar. `read_formula` answers with that function, unless memory is refused, and `print_formula` writes the text that is read
//! as the same formula again.
#![tactic(auto)]

pub mod formula;
pub mod laws;
pub mod printer;
pub mod reader;

pub use formula::Formula;
pub use printer::print_formula;
pub use reader::read_formula;
