//! The cells of a network that are linked to some of its contractors: what these may have narrowed, themselves or through others.
//!
//! Linked are the cells that one of these contractors reads or writes, and with one cell of any other contractor all its cells. Where the box
//! is empty, every cell is. [`linked_cells`] finds them in one pass over the contractors, which joins what each reads or writes, and one
//! over the cells.
#![tactic(auto)]

mod classes;
mod joining;
mod linked;

pub use linked::linked_cells;
