//! Contractors made of parts, of which a firing visits only those that may narrow.
//!
//! A contractor over many slices has a part for each slice. Whoever fires it keeps a mark for each part: it stands where the box may not be
//! stable under that part. A firing visits the marked parts and those that a visit reaches, and leaves out the others, of which it is told
//! that the box is stable under them.
//!
//! ```text
//!   marks   . . x . . . x .      visited upwards, and then back down:
//!                                the marked parts, and each part beside one
//!   parts   0 1 2 3 4 5 6 7      that narrowed a cell which both read
//! ```
//!
//! - [`Parted`] is the trait of a contractor made of parts, and what a network asks of it: its parts, which of them read a cell, a firing
//!   and a test by marks.
//! - [`revise_whole`] and [`still_whole`] are a firing and a test by marks of any contractor, taken as a single part.
//! - [`Parts`] is what the author of a contractor of parts in a row writes: the visit and the test of one part. From it come the firing
//!   ([`sweep_by_parts`]) and the test ([`still_by_parts`]) by marks, those of all parts ([`revise_all`], [`still_all`]), and the cells that
//!   are written ([`writes_by_parts`], [`written_by_parts`]).
//! - [`clean_law`] says to who keeps the marks what has to be marked after a firing.
//!
//! Marks are lent as a slice of flags and a range of numbers: outside the range no part is marked, whatever its flag. So a sweep over a few
//! marks costs no look at all the others.
#![tactic(auto)]

mod all;
mod laws;
mod marks;
mod parted;
mod parts;
mod sweep;
mod whole;

pub use all::{revise_all, still_all, writes_by_parts, written_by_parts};
pub use laws::clean_law;
pub use marks::is_marked;
pub use parted::Parted;
pub use parts::{Parts, Visit, width_at};
pub use sweep::{still_by_parts, sweep_by_parts};
pub use whole::{revise_whole, still_whole};
