//! The top call: from the words of the command line and the bytes of a mission log to the bytes of the report and a status. Its
//! contract carries what the program promises: enclosure, the greatest fixpoint, and the cause of every answer.
#![tactic(auto)]

mod ended;
mod ending;
mod hearing;
mod plan;
mod reporting;
mod sure;
mod top;

pub use ended::{Ended, SpentAt, Status};
pub use mission_loops::FoundSets;
pub use plan::{Origin, Plan, Tail, plan_of};
pub use sure::run_in_memory;
pub use top::run;
