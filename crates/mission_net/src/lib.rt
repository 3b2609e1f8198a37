//! What the records of a mission mean for the network: the cells and contractors that each makes, in order, and what the settled
//! box then is: the greatest common fixpoint of the records so far, which encloses every trajectory that is consistent with them.
#![tactic(auto)]

mod adding;
mod formulas;
mod laws;
mod made;
mod missions;
mod motion;
mod points;
mod records;
mod section;

pub use any_ctc::AnyCtc;
pub use laws::settled_section_law;
pub use made::Made;
pub use missions::{build, build_on};
pub use section::{SectionEnd, next_section};
