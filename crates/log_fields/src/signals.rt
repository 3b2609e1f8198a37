//! The fields of the records that speak of signals.

ghost use Rattle.std.specs.Prelude.{◌≡◌, true, IfOk};
ghost use Rattle.csv.specs.Records.{fields_of};
ghost use Rattle.log_spelling.specs.Names.{is_name};
ghost use Rattle.log_fields.specs.Fields.{IsRange};
ghost use Rattle.log_fields.specs.Kinds.{at_fields, bound_fields, delay_fields, deriv_fields, eval_fields};
ghost use Rattle.log_fields.specs.Said.{IsSpelled, said};
ghost use Rattle.log_fields.specs.Steps.{Gives};

use crate::fault::{Cause, Stop};
use crate::fields::{Reference, ensure, name_at, number_at, range_at, reference_at};
use csv::ByteRecord;
use int_interval::Interval;

/// `deriv,x,v`: the names of a signal and of its rate.
#[derive(Drop)]
pub struct DerivFields<'a> {
    pub x: &'a [u8],
    pub rate: &'a [u8],
}

/// `bound,x,t1,t2,lo,hi`: a signal's name, the first and the last tick, and the measured range.
#[derive(Drop)]
pub struct BoundFields<'a> {
    pub name: &'a [u8],
    pub first: i64,
    pub last: i64,
    pub range: Interval,
}

/// `at,x,t,lo,hi`: a signal's name, the tick and the measured range.
#[derive(Drop)]
pub struct AtFields<'a> {
    pub name: &'a [u8],
    pub tick: i64,
    pub range: Interval,
}

/// `eval,x,t,z`: a signal's name, and the variables of the time and of the value.
#[derive(Drop)]
pub struct EvalFields<'a> {
    pub x: &'a [u8],
    pub time: Reference<'a>,
    pub value: Reference<'a>,
}

/// `delay,x,y,tau`: the names of two signals, and the variable of the delay.
#[derive(Drop)]
pub struct DelayFields<'a> {
    pub x: &'a [u8],
    pub y: &'a [u8],
    pub delay: Reference<'a>,
}

/// The fields of a `deriv` record.
#[tactic(auto, unfolding(crate::specs::Kinds::deriv_fields))]
pub fn deriv_fields(row: &ByteRecord) -> Result<DerivFields<'_>, Stop>
    ensures value { Gives (λ f. (f.x.now, f.rate.now)) result (deriv_fields (fields_of row.now)) }
    ensures spelled { IfOk result (λ f. is_name f.x.now ≡ true) }
    ensures spelled_rate { IfOk result (λ f. is_name f.rate.now ≡ true) }
{
    ensure(row.len() == 3, Cause::Fields)?;
    let x = name_at(row, 1)?;
    let rate = name_at(row, 2)?;
    Ok(DerivFields { x, rate })
}

/// The fields of a `bound` record.
#[tactic(auto, unfolding(crate::specs::Kinds::bound_fields))]
pub fn bound_fields(row: &ByteRecord) -> Result<BoundFields<'_>, Stop>
    ensures value { Gives (λ f. (f.name.now, f.first, f.last, f.range)) result (bound_fields (fields_of row.now)) }
    ensures spelled { IfOk result (λ f. is_name f.name.now ≡ true) }
    ensures within { IfOk result (λ f. IsRange f.range) }
{
    ensure(row.len() == 6, Cause::Fields)?;
    let name = name_at(row, 1)?;
    let first = number_at(row, 2)?;
    let last = number_at(row, 3)?;
    let range = range_at(row, 4)?;
    Ok(BoundFields {
        name,
        first,
        last,
        range,
    })
}

/// The fields of an `at` record.
#[tactic(auto, unfolding(crate::specs::Kinds::at_fields))]
pub fn at_fields(row: &ByteRecord) -> Result<AtFields<'_>, Stop>
    ensures value { Gives (λ f. (f.name.now, f.tick, f.range)) result (at_fields (fields_of row.now)) }
    ensures spelled { IfOk result (λ f. is_name f.name.now ≡ true) }
    ensures within { IfOk result (λ f. IsRange f.range) }
{
    ensure(row.len() == 5, Cause::Fields)?;
    let name = name_at(row, 1)?;
    let tick = number_at(row, 2)?;
    let range = range_at(row, 3)?;
    Ok(AtFields { name, tick, range })
}

/// The fields of an `eval` record.
#[tactic(auto, unfolding(crate::specs::Kinds::eval_fields))]
pub fn eval_fields(row: &ByteRecord) -> Result<EvalFields<'_>, Stop>
    ensures value { Gives (λ f. (f.x.now, said f.time, said f.value)) result (eval_fields (fields_of row.now)) }
    ensures spelled { IfOk result (λ f. is_name f.x.now ≡ true) }
    ensures spelled_time { IfOk result (λ f. IsSpelled f.time) }
    ensures spelled_value { IfOk result (λ f. IsSpelled f.value) }
{
    ensure(row.len() == 4, Cause::Fields)?;
    let x = name_at(row, 1)?;
    let time = reference_at(row, 2)?;
    let value = reference_at(row, 3)?;
    Ok(EvalFields { x, time, value })
}

/// The fields of a `delay` record.
#[tactic(auto, unfolding(crate::specs::Kinds::delay_fields))]
pub fn delay_fields(row: &ByteRecord) -> Result<DelayFields<'_>, Stop>
    ensures value { Gives (λ f. (f.x.now, f.y.now, said f.delay)) result (delay_fields (fields_of row.now)) }
    ensures spelled_x { IfOk result (λ f. is_name f.x.now ≡ true) }
    ensures spelled_y { IfOk result (λ f. is_name f.y.now ≡ true) }
    ensures spelled_delay { IfOk result (λ f. IsSpelled f.delay) }
{
    ensure(row.len() == 4, Cause::Fields)?;
    let x = name_at(row, 1)?;
    let y = name_at(row, 2)?;
    let delay = reference_at(row, 3)?;
    Ok(DelayFields { x, y, delay })
}
