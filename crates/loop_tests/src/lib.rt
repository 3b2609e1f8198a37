//! Cells, labels and degrees one by one, which no run of the program prints. All expected values were worked out from the formulas, and none was
//! taken from the program. Worked questions stand in `tests/reports`.
#![tactic(auto)]

#[cfg(test)]
mod degrees;
#[cfg(test)]
mod path;
