//! The fields of the records that declare a name.

ghost use Rattle.std.specs.Prelude.{◌≡◌, true, IfOk};
ghost use Rattle.csv.specs.Records.{fields_of};
ghost use Rattle.log_spelling.specs.Names.{is_name};
ghost use Rattle.log_fields.specs.Fields.{IsRange};
ghost use Rattle.log_fields.specs.Kinds.{beacon_fields, declared_fields};
ghost use Rattle.log_fields.specs.Steps.{Gives};

use crate::fault::{Cause, Stop};
use crate::fields::{ensure, name_at, number_at, range_at, range_of};
use csv::ByteRecord;
use int_interval::Interval;

/// `signal,name,lo,hi` or `var,name,lo,hi`: a new name and its declared range in millimetres.
#[derive(Drop)]
pub struct DeclaredFields<'a> {
    pub name: &'a [u8],
    pub range: Interval,
}

/// `beacon,name,x1,x2,y1,y2`: a new name, and the declared ranges of its coordinates in millimetres.
#[derive(Drop)]
pub struct BeaconFields<'a> {
    pub name: &'a [u8],
    pub x: Interval,
    pub y: Interval,
}

/// The fields of a `signal` or a `var` record.
#[tactic(auto, unfolding(crate::specs::Kinds::declared_fields))]
pub fn declared_fields(row: &ByteRecord) -> Result<DeclaredFields<'_>, Stop>
    ensures value { Gives (λ f. (f.name.now, f.range)) result (declared_fields (fields_of row.now)) }
    ensures spelled { IfOk result (λ f. is_name f.name.now ≡ true) }
    ensures within { IfOk result (λ f. IsRange f.range) }
{
    ensure(row.len() == 4, Cause::Fields)?;
    let name = name_at(row, 1)?;
    let range = range_at(row, 2)?;
    Ok(DeclaredFields { name, range })
}

/// The fields of a `beacon` record.
#[tactic(auto, unfolding(crate::specs::Kinds::beacon_fields))]
pub fn beacon_fields(row: &ByteRecord) -> Result<BeaconFields<'_>, Stop>
    ensures value { Gives (λ f. (f.name.now, f.x, f.y)) result (beacon_fields (fields_of row.now)) }
    ensures spelled { IfOk result (λ f. is_name f.name.now ≡ true) }
    ensures within_x { IfOk result (λ f. IsRange f.x) }
    ensures within_y { IfOk result (λ f. IsRange f.y) }
{
    ensure(row.len() == 6, Cause::Fields)?;
    let name = name_at(row, 1)?;
    let x1 = number_at(row, 2)?;
    let x2 = number_at(row, 3)?;
    let y1 = number_at(row, 4)?;
    let y2 = number_at(row, 5)?;
    let x = range_of(x1, x2)?;
    let y = range_of(y1, y2)?;
    Ok(BeaconFields { name, x, y })
}
