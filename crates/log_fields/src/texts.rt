//! The fields of the records of texts, of questions and of sections.

ghost use Rattle.std.specs.Prelude.{◌≡◌, ◌≤◌, true, IfOk};
ghost use Rattle.csv.specs.Records.{fields_of};
ghost use Rattle.log_spelling.specs.Names.{is_name};
ghost use Rattle.tube_spec.specs.Limits.{most_ticks};
ghost use Rattle.log_fields.specs.Fields.{IsRadius};
ghost use Rattle.log_fields.specs.Kinds.{revisit_fields, settle_fields, text_fields};
ghost use Rattle.log_fields.specs.Steps.{Gives};

use crate::fault::{Cause, Stop};
use crate::fields::{count_of, ensure, ensure_radius, field, name_at, number_at};
use csv::ByteRecord;

/// `revisit,x,y,R,G`: the names of two signals, the radius in millimetres, and the least number of ticks
/// between.
#[derive(Drop)]
pub struct RevisitFields<'a> {
    pub x: &'a [u8],
    pub y: &'a [u8],
    pub radius: i64,
    pub gap: u32,
}

/// The text of an `expr` or an `exprv` record, trimmed.
#[tactic(auto, unfolding(crate::specs::Kinds::text_fields))]
pub fn text_fields(row: &ByteRecord) -> Result<&[u8], Stop>
    ensures { Gives (λ text. text.now) result (text_fields (fields_of row.now)) }
{
    ensure(row.len() == 2, Cause::Fields)?;
    Ok(field(row, 1))
}

/// The fields of a `revisit` record.
#[tactic(auto, unfolding(crate::specs::Kinds::revisit_fields))]
pub fn revisit_fields(row: &ByteRecord) -> Result<RevisitFields<'_>, Stop>
    ensures value { Gives (λ f. (f.x.now, f.y.now, f.radius, f.gap)) result (revisit_fields (fields_of row.now)) }
    ensures spelled_x { IfOk result (λ f. is_name f.x.now ≡ true) }
    ensures spelled_y { IfOk result (λ f. is_name f.y.now ≡ true) }
    ensures within { IfOk result (λ f. IsRadius f.radius) }
    ensures some_gap { IfOk result (λ f. 1 ≤ f.gap) }
    ensures small_gap { IfOk result (λ f. f.gap ≤ most_ticks) }
{
    ensure(row.len() == 5, Cause::Fields)?;
    let x = name_at(row, 1)?;
    let y = name_at(row, 2)?;
    let radius = number_at(row, 3)?;
    let gap = number_at(row, 4)?;
    ensure_radius(radius)?;
    let gap = count_of(gap)?;
    Ok(RevisitFields { x, y, radius, gap })
}

/// The fields of a `settle` record, of which there are none but the first.
#[tactic(auto, unfolding(crate::specs::Kinds::settle_fields))]
pub fn settle_fields(row: &ByteRecord) -> Result<(), Stop>
    ensures { Gives (λ _. tt) result (settle_fields (fields_of row.now)) }
{
    ensure(row.len() == 1, Cause::Fields)
}
