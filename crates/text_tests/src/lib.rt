//! Worked texts that the program doesn't print or read: formulas and logs in canonical form, the place of a formula's first fault, the log of a
//! demo mission, sections of a report and bundles read back, and the lines of a bundle. All expected values were worked out from the formats, and
//! none was taken from the program. What is refused of a log, and why, stands in `tests/logs`, and worked reports in `tests/reports`.
#![tactic(auto)]

#[cfg(test)]
mod bundles;
#[cfg(test)]
mod demos;
#[cfg(test)]
mod formulas;
#[cfg(test)]
mod logs;
#[cfg(test)]
mod sections;
