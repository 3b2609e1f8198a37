//! A network's orders, turns and retractions: contractors of the test write down who is fired, and how often. All expected numbers were worked out from the
//! formulas, and none was taken from the program.
#![tactic(auto)]

#[cfg(test)]
mod orders;
#[cfg(test)]
mod relations;
#[cfg(test)]
mod retraction;
#[cfg(test)]
mod turns;
