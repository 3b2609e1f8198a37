//! The fields of the records that make the clock.

ghost use Rattle.std.specs.Prelude.{◌≤◌, IfOk};
ghost use Rattle.csv.specs.Records.{fields_of};
ghost use Rattle.tube_spec.specs.Limits.{most_ticks};
ghost use Rattle.log_fields.specs.Kinds.{cut_fields, mission_fields};
ghost use Rattle.log_fields.specs.Steps.{Gives};

use crate::fault::{Cause, Stop};
use crate::fields::{count_of, ensure, number_at, version_at};
use csv::ByteRecord;

/// `mission,V,T,w`: the version, the last tick, and the width of slices in ticks.
#[derive(Clone, Copy, Debug, PartialEq, Eq)]
pub struct ClockFields {
    pub version: u32,
    pub ticks: u32,
    pub width: u32,
}

/// The fields of a `mission` record: version 1 or 2, and 1 to 100,000 ticks for each of the two numbers.
#[tactic(auto, unfolding(crate::specs::Kinds::mission_fields))]
pub fn mission_fields(row: &ByteRecord) -> Result<ClockFields, Stop>
    ensures value { Gives (λ f. (f.version, f.ticks, f.width)) result (mission_fields (fields_of row.now)) }
    ensures first_version { IfOk result (λ f. 1 ≤ f.version) }
    ensures last_version { IfOk result (λ f. f.version ≤ 2) }
    ensures some_tick { IfOk result (λ f. 1 ≤ f.ticks) }
    ensures few_ticks { IfOk result (λ f. f.ticks ≤ most_ticks) }
    ensures some_width { IfOk result (λ f. 1 ≤ f.width) }
    ensures small_width { IfOk result (λ f. f.width ≤ most_ticks) }
{
    let version = version_at(row)?;
    ensure(row.len() == 4, Cause::Fields)?;
    let ticks = number_at(row, 2)?;
    let width = number_at(row, 3)?;
    let ticks = count_of(ticks)?;
    let width = count_of(width)?;
    Ok(ClockFields {
        version,
        ticks,
        width,
    })
}

/// The tick of a `cut,t` record.
#[tactic(auto, unfolding(crate::specs::Kinds::cut_fields))]
pub fn cut_fields(row: &ByteRecord) -> Result<i64, Stop>
    ensures { Gives (λ tick. tick) result (cut_fields (fields_of row.now)) }
{
    ensure(row.len() == 2, Cause::Fields)?;
    number_at(row, 1)
}
