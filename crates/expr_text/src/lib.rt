//! The text of expressions, both ways.
//!
//! A text is a relation where a phrase of the grammar has its tokens (`specs/Grammar.antt`), and means the tree of that phrase.
//! `parse` first decides by a loop over the tokens, which keeps the kinds of the open brackets, whether the text is a relation, and
//! counts its nodes and brackets; only a relation within the limits is built, by recursive descent. So no stack grows with a text.
#![tactic(auto)]

mod acceptor;
mod build;
mod depth;
pub mod fault;
pub mod laws;
pub mod parser;
pub mod printer;
mod scan;
mod token;

pub use fault::ExprFault;
pub use parser::parse;
pub use printer::print;
