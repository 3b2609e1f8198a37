//! The text of a bundle, from what it says, and its lines as they are written: a log, the firings of each section with the section's text, and
//! what was found of the queries, with the cells and corners from which each degree is made.
//!
//! Lines end with byte 10, words are parted by one space, and numbers are decimal. Pairs are of ticks. No call takes memory.
//!
//! ```text
//! bundle N                     the N bytes of the log follow, whatever they are, and then byte 10
//! fires K C                    of section K so many firings are listed
//! fire ID                      each of them: the number of the contractor that was fired
//! section K VERDICT ..         the text of section K as the report has it, to its line `end K`
//! loops Q sets N               the query Q has so many sets, numbered from 1; or `loops Q crowded`, and then `done Q`
//! set S pairs P a A1 A2 ..     the line of a set as the report has it
//! run A FIRST LAST             its runs, one at least, as the report has them
//! cell A B                     its unit cells, where it is `proved degree`
//! corner A B LABEL             the corners of their boundary, where it is: LABEL is east, west, north or south
//! done Q
//! ```
#![tactic(auto)]

pub mod bundle;
pub mod laws;
pub mod lines;

pub use bundle::{Bundle, Listed, TracedQuery, TracedSection, TracedSet};
pub use lines::{BundleLine, write_line};
pub use loop_degree::Label;
