//! Questions for loops, and the ends of sections.

ghost use Rattle.std.specs.Prelude.{◌≡◌, true};
ghost use Rattle.csv.specs.Records.{fields_of};
ghost use Rattle.log_fields.specs.Steps.{Gives};
ghost use Rattle.mission_items.specs.Made.{has_head};
ghost use Rattle.mission_items.specs.Valid.{norm_in};
ghost use Rattle.mission_log.specs.Log.{revisit_step, settle_step};

use csv::ByteRecord;
use log_draft::Draft;
use log_fields::fields::ensure;
use log_fields::texts::{revisit_fields, settle_fields};
use log_fields::{Cause, Stop};
use mission_items::Item;
use tube_names::{Norm, Query};

#[tactic(auto, unfolding(crate::specs::Log::revisit_step))]
pub(crate) fn take_revisit(draft: &mut Draft, row: &ByteRecord) -> Result<(), Stop>
    requires { has_head draft.old.items ≡ true }
    ensures { Gives (λ _. draft.new) result (revisit_step draft.old (fields_of row.now)) }
{
    let fields = match revisit_fields(row) {
        Ok(fields) => fields,
        Err(stop) => return Err(stop),
    };
    let first = draft.declaration(fields.x)?;
    let second = draft.declaration(fields.y)?;
    let x = draft.signal(first)?;
    let y = draft.signal(second)?;
    let q = Query {
        x,
        y,
        radius: fields.radius,
        gap: fields.gap,
        norm: norm_in(draft.version()),
    };
    let item = Item::Revisit { q };
    let counts = draft.room_for(&item, 0)?;
    ensure(x.0 != y.0, Cause::Same)?;
    ensure(draft.revisits() < 16, Cause::Queries)?;
    ensure(draft.ticks() <= 20_000, Cause::Plane)?;
    draft.push(item, counts)?;
    Ok(())
}

fn norm_in(version: u32) -> Norm
    ensures { result ≡ norm_in version }
{
    if version == 2 {
        Norm::Disc
    } else {
        Norm::Maximum
    }
}

#[tactic(auto, unfolding(crate::specs::Log::settle_step))]
pub(crate) fn take_settle(draft: &mut Draft, row: &ByteRecord) -> Result<(), Stop>
    requires { has_head draft.old.items ≡ true }
    ensures { Gives (λ _. draft.new) result (settle_step draft.old (fields_of row.now)) }
{
    settle_fields(row)?;
    draft.add(Item::Settle, 0)?;
    Ok(())
}
