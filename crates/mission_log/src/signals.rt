//! The records that speak of signals.

ghost use Rattle.std.specs.Prelude.{◌≡◌, true};
ghost use Rattle.csv.specs.Records.{fields_of};
ghost use Rattle.log_fields.specs.Steps.{Gives};
ghost use Rattle.mission_items.specs.Made.{has_head};
ghost use Rattle.mission_log.specs.Log.{at_step, bound_step, delay_step, deriv_step, eval_step};

use crate::meant::range_of;
use csv::ByteRecord;
use log_draft::Draft;
use log_fields::fields::ensure;
use log_fields::signals::{at_fields, bound_fields, delay_fields, deriv_fields, eval_fields};
use log_fields::{Cause, Stop};
use mission_items::Item;
use std::alloc::Global;

#[tactic(auto, unfolding(crate::specs::Log::deriv_step))]
pub(crate) fn take_deriv(draft: &mut Draft, row: &ByteRecord) -> Result<(), Stop>
    requires { has_head draft.old.items ≡ true }
    ensures { Gives (λ _. draft.new) result (deriv_step draft.old (fields_of row.now)) }
{
    let fields = match deriv_fields(row) {
        Ok(fields) => fields,
        Err(stop) => return Err(stop),
    };
    let first = draft.declaration(fields.x)?;
    let second = draft.declaration(fields.rate)?;
    let x = draft.signal(first)?;
    let rate = draft.signal(second)?;
    let item = Item::Deriv { x, rate };
    let counts = draft.room_for(&item, 4 * draft.slices())?;
    ensure(x.0 != rate.0, Cause::Same)?;
    draft.push(item, counts)?;
    Ok(())
}

#[tactic(auto, unfolding(crate::specs::Log::bound_step))]
pub(crate) fn take_bound(draft: &mut Draft, row: &ByteRecord) -> Result<(), Stop>
    requires { has_head draft.old.items ≡ true }
    ensures { Gives (λ _. draft.new) result (bound_step draft.old (fields_of row.now)) }
{
    let fields = match bound_fields(row) {
        Ok(fields) => fields,
        Err(stop) => return Err(stop),
    };
    let declared = draft.declaration(fields.name)?;
    let x = draft.signal(declared)?;
    let first = draft.tick(fields.first)?;
    let last = draft.tick(fields.last)?;
    ensure(first <= last, Cause::Tick)?;
    let range = fields.range;
    draft.add(
        Item::Bound {
            x,
            first,
            last,
            range,
        },
        0,
    )?;
    Ok(())
}

#[tactic(auto, unfolding(crate::specs::Log::at_step))]
pub(crate) fn take_at(draft: &mut Draft, alloc: Global, row: &ByteRecord) -> Result<(), Stop>
    requires { has_head draft.old.items ≡ true }
    ensures { Gives (λ _. draft.new) result (at_step draft.old (fields_of row.now)) }
{
    let fields = match at_fields(row) {
        Ok(fields) => fields,
        Err(stop) => return Err(stop),
    };
    let declared = draft.declaration(fields.name)?;
    let x = draft.signal(declared)?;
    let tick = draft.tick(fields.tick)?;
    let foot = draft.evaluation_during(alloc, x, tick, tick)?;
    let range = fields.range;
    draft.add(Item::At { x, tick, range }, foot)?;
    Ok(())
}

#[tactic(auto, unfolding(crate::specs::Log::eval_step))]
pub(crate) fn take_eval(draft: &mut Draft, alloc: Global, row: &ByteRecord) -> Result<(), Stop>
    requires { has_head draft.old.items ≡ true }
    ensures { Gives (λ _. draft.new) result (eval_step draft.old (fields_of row.now)) }
{
    let fields = match eval_fields(row) {
        Ok(fields) => fields,
        Err(stop) => return Err(stop),
    };
    let first = draft.declaration(fields.x)?;
    let second = draft.declaration(fields.time.name)?;
    let third = draft.declaration(fields.value.name)?;
    let x = draft.signal(first)?;
    let range = range_of(&second, fields.time.part);
    let t = draft.variable(second, fields.time.part)?;
    let z = draft.variable(third, fields.value.part)?;
    draft.ensure_narrow(range)?;
    let foot = draft.evaluation(alloc, x, range)?;
    let item = Item::Eval { x, t, z };
    let counts = draft.room_for(&item, foot)?;
    ensure(t.0 != z.0, Cause::Same)?;
    draft.push(item, counts)?;
    Ok(())
}

#[tactic(auto, unfolding(crate::specs::Log::delay_step))]
pub(crate) fn take_delay(draft: &mut Draft, row: &ByteRecord) -> Result<(), Stop>
    requires { has_head draft.old.items ≡ true }
    ensures { Gives (λ _. draft.new) result (delay_step draft.old (fields_of row.now)) }
{
    let fields = match delay_fields(row) {
        Ok(fields) => fields,
        Err(stop) => return Err(stop),
    };
    let first = draft.declaration(fields.x)?;
    let second = draft.declaration(fields.y)?;
    let third = draft.declaration(fields.delay.name)?;
    let x = draft.signal(first)?;
    let y = draft.signal(second)?;
    let range = range_of(&third, fields.delay.part);
    let tau = draft.variable(third, fields.delay.part)?;
    draft.ensure_narrow(range)?;
    let item = Item::Delay { x, y, tau };
    let each = 2 * draft.slices() + 1;
    let counts = draft.room_for(&item, 3 * (2 * each + 1))?;
    ensure(x.0 != y.0, Cause::Same)?;
    draft.push(item, counts)?;
    Ok(())
}
