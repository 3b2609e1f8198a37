//! The fields of the records that speak of points: distances and constellations.

ghost use Rattle.std.specs.Prelude.{◌≡◌, true, All, IfOk, IfSome, map, option_map};
ghost use Rattle.csv.specs.Records.{fields_of};
ghost use Rattle.log_spelling.specs.Names.{is_name};
ghost use Rattle.log_fields.specs.Fields.{AreRadii};
ghost use Rattle.log_fields.specs.Kinds.{constell_fields, ping_fields, range3_fields, range_fields};
ghost use Rattle.log_fields.specs.Said.{IsSpelled, said};
ghost use Rattle.log_fields.specs.Steps.{Gives};

use crate::fault::{Cause, Stop};
use crate::fields::{Reference, beacon_at, ensure, name_at, number_at, radii_at, reference_at};
use csv::ByteRecord;

/// `range,r1,r2,px,py,bx,by`: the least and the greatest distance in millimetres, and the coordinates of
/// both points in this order.
#[derive(Drop)]
pub struct RangeFields<'a> {
    pub near: i64,
    pub far: i64,
    pub points: [Reference<'a>; 4],
}

/// `range3,r1,r2,px,py,pz,bx,by,bz`: the least and the greatest distance in millimetres, and the
/// coordinates of both points in this order.
#[derive(Drop)]
pub struct Range3Fields<'a> {
    pub near: i64,
    pub far: i64,
    pub points: [Reference<'a>; 6],
}

/// `constell,px,py`: the coordinates of the point.
#[derive(Drop)]
pub struct ConstellFields<'a> {
    pub x: Reference<'a>,
    pub y: Reference<'a>,
}

/// `ping,x,y,t1,t2,beacon,r1,r2`: the names of the signals of the position, the first and the last tick,
/// the name of the beacon, if it is not `?`, and the least and the greatest distance in millimetres.
#[derive(Drop)]
pub struct PingFields<'a> {
    pub x: &'a [u8],
    pub y: &'a [u8],
    pub first: i64,
    pub last: i64,
    pub beacon: Option<&'a [u8]>,
    pub near: i64,
    pub far: i64,
}

/// The fields of a `range` record.
#[tactic(auto, unfolding(crate::specs::Kinds::range_fields))]
pub fn range_fields(row: &ByteRecord) -> Result<RangeFields<'_>, Stop>
    ensures value { Gives (λ f. (f.near, f.far, map said f.points)) result (range_fields (fields_of row.now)) }
    ensures spelled { IfOk result (λ f. All IsSpelled f.points) }
    ensures within { IfOk result (λ f. AreRadii f.near f.far) }
{
    ensure(row.len() == 7, Cause::Fields)?;
    let px = reference_at(row, 3)?;
    let py = reference_at(row, 4)?;
    let bx = reference_at(row, 5)?;
    let by = reference_at(row, 6)?;
    let (near, far) = radii_at(row, 1)?;
    Ok(RangeFields {
        near,
        far,
        points: [px, py, bx, by],
    })
}

/// The fields of a `range3` record.
#[tactic(auto, unfolding(crate::specs::Kinds::range3_fields))]
pub fn range3_fields(row: &ByteRecord) -> Result<Range3Fields<'_>, Stop>
    ensures value { Gives (λ f. (f.near, f.far, map said f.points)) result (range3_fields (fields_of row.now)) }
    ensures spelled { IfOk result (λ f. All IsSpelled f.points) }
    ensures within { IfOk result (λ f. AreRadii f.near f.far) }
{
    ensure(row.len() == 9, Cause::Fields)?;
    let px = reference_at(row, 3)?;
    let py = reference_at(row, 4)?;
    let pz = reference_at(row, 5)?;
    let bx = reference_at(row, 6)?;
    let by = reference_at(row, 7)?;
    let bz = reference_at(row, 8)?;
    let (near, far) = radii_at(row, 1)?;
    Ok(Range3Fields {
        near,
        far,
        points: [px, py, pz, bx, by, bz],
    })
}

/// The fields of a `constell` record.
#[tactic(auto, unfolding(crate::specs::Kinds::constell_fields))]
pub fn constell_fields(row: &ByteRecord) -> Result<ConstellFields<'_>, Stop>
    ensures value { Gives (λ f. (said f.x, said f.y)) result (constell_fields (fields_of row.now)) }
    ensures spelled_x { IfOk result (λ f. IsSpelled f.x) }
    ensures spelled_y { IfOk result (λ f. IsSpelled f.y) }
{
    ensure(row.len() == 3, Cause::Fields)?;
    let x = reference_at(row, 1)?;
    let y = reference_at(row, 2)?;
    Ok(ConstellFields { x, y })
}

/// The fields of a `ping` record.
#[tactic(auto, unfolding(crate::specs::Kinds::ping_fields))]
pub fn ping_fields(row: &ByteRecord) -> Result<PingFields<'_>, Stop>
    ensures value { Gives (λ f. (f.x.now, f.y.now, f.first, f.last, option_map (λ name. name.now) f.beacon, f.near, f.far)) result (ping_fields (fields_of row.now)) }
    ensures spelled_x { IfOk result (λ f. is_name f.x.now ≡ true) }
    ensures spelled_y { IfOk result (λ f. is_name f.y.now ≡ true) }
    ensures spelled_beacon { IfOk result (λ f. IfSome f.beacon (λ name. is_name name.now ≡ true)) }
    ensures within { IfOk result (λ f. AreRadii f.near f.far) }
{
    ensure(row.len() == 8, Cause::Fields)?;
    let x = name_at(row, 1)?;
    let y = name_at(row, 2)?;
    let beacon = beacon_at(row, 5)?;
    let first = number_at(row, 3)?;
    let last = number_at(row, 4)?;
    let (near, far) = radii_at(row, 6)?;
    Ok(PingFields {
        x,
        y,
        first,
        last,
        beacon,
        near,
        far,
    })
}
